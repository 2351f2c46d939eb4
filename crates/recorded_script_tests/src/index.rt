// The lines of an index.
ghost use Rattle.std.specs.Prelude.{◌≤◌, IfSome};

/// The name and the number of copy workers in a line of the index. `None` where there is no such number.
pub fn named(line: &str) -> Option<(&str, u32)>
    ensures some { IfSome result (λ named. 1 ≤ named.1) }
    ensures few { IfSome result (λ named. named.1 ≤ 4) }
{
    let Some((name, workers)) = line.split_once(' ') else {
        return Some((line, 1));
    };
    match workers {
        "1" => Some((name, 1)),
        "2" => Some((name, 2)),
        "3" => Some((name, 3)),
        "4" => Some((name, 4)),
        _ => None,
    }
}

/// Whether some line of an index is of this name.
pub fn has_row(index: &str, name: &str) -> bool {
    index.lines().any(|line| matches!(named(line), Some((row, _)) if row == name))
}
