// What the merge of a snapshot undoes, over any lines.
ghost use Rattle.script_runner.specs.Undoing.{Finishes, Undoes};

/// Laws of the lines of a desk, and no more. A snapshot that was made over a store without a header, and that no line wrote
/// or made again, gives its origin what it showed at that line, once it is merged, whatever else the lines between did; and
/// once the merge is finished, what the origin shows stands on its device. Each line has its rule.
pub fn look_at_undoing()
    ensures undoes { Undoes }
    ensures finishes { Finishes }
{}
