// The forms of lines: the words that a line of each command has. In capitals stands what a word says, and `|` between words of which
// one is taken.
ghost use Rattle.std.specs.Prelude.{◌≡◌, option_copied};
ghost use Rattle.words.specs.Texts.{texts};
ghost use Rattle.explain_syntax.specs.Slots.{is_one_of};
ghost use Rattle.explain_syntax.specs.Forms.{word_at, flakey_form, snapshot_form, create_form, message_form, numbered_events, snapshot_events, step_form, start_form, stop_form, par_form, volume_form, form_of, seat_form};

use crate::slot::is_one_of;

/// The word at a place; no byte where there is none.
#[tactic(auto, unfolding(crate::specs::Forms::word_at))]
fn word_at<'a>(words: &[&'a [u8]], place: usize) -> &'a [u8]
    ensures { result.now ≡ word_at (texts words.now) place }
{
    match words.get(place) {
        Some(word) => *word,
        None => b"",
    }
}

/// The form of a flakey layer's line, by how many words it has.
#[tactic(auto, unfolding(crate::specs::Forms::flakey_form))]
fn flakey_form(words: &[&[u8]]) -> &'static str
    ensures { result.now ≡ flakey_form (texts words.now) }
{
    if words.len() > 10 {
        "create NAME 0 SECTORS flakey DEV OFFSET UP DOWN N FEATURE"
    } else if words.len() > 9 {
        "create NAME 0 SECTORS flakey DEV OFFSET UP DOWN N"
    } else {
        "create NAME 0 SECTORS flakey DEV OFFSET UP DOWN"
    }
}

/// The form of a snapshot's line, by how many words it has.
#[tactic(auto, unfolding(crate::specs::Forms::snapshot_form))]
fn snapshot_form(words: &[&[u8]]) -> &'static str
    ensures { result.now ≡ snapshot_form (texts words.now) }
{
    if words.len() > 9 {
        "create NAME 0 SECTORS snapshot DEV STORE P|PO CHUNK 0"
    } else {
        "create NAME 0 SECTORS snapshot DEV STORE P|PO CHUNK"
    }
}

/// The form of a device's table line, by its target.
#[tactic(auto, unfolding(crate::specs::Forms::create_form))]
fn create_form(words: &[&[u8]]) -> &'static str
    ensures { result.now ≡ create_form (texts words.now) }
{
    let target = word_at(words, 4);
    if target == b"snapshot-origin".as_slice() {
        "create NAME 0 SECTORS snapshot-origin DEV"
    } else if target == b"snapshot".as_slice() {
        snapshot_form(words)
    } else if target == b"flakey".as_slice() {
        flakey_form(words)
    } else if target == b"dust".as_slice() {
        "create NAME 0 SECTORS dust DEV 0 BLOCK"
    } else if target == b"error".as_slice() {
        "create NAME 0 SECTORS error"
    } else {
        "create NAME 0 SECTORS snapshot-origin|snapshot|flakey|dust|error"
    }
}

/// The form of a message, by its word.
#[tactic(auto, unfolding(crate::specs::Forms::message_form))]
fn message_form(word: &[u8]) -> &'static str
    ensures { result.now ≡ message_form word.now }
{
    if word == b"addbadblock".as_slice() {
        "message DEV 0 addbadblock K"
    } else if word == b"removebadblock".as_slice() {
        "message DEV 0 removebadblock K"
    } else if word == b"queryblock".as_slice() {
        "message DEV 0 queryblock K"
    } else if word == b"tick".as_slice() {
        "message DEV 0 tick SECONDS"
    } else {
        "message DEV 0 addbadblock|removebadblock|queryblock|countbadblocks|clearbadblocks|enable|disable|tick"
    }
}

/// Whether a word is an event that is told with a number.
#[tactic(auto, unfolding(crate::specs::Forms::numbered_events))]
fn has_number(event: &[u8]) -> bool
    ensures { result ≡ is_one_of numbered_events event.now }
{
    let events = ["issue", "copy-read", "copy-write", "publish"];
    is_one_of(&events, event)
}

/// Whether a word is an event that is told with a snapshot.
#[tactic(auto, unfolding(crate::specs::Forms::snapshot_events))]
fn has_snapshot(event: &[u8]) -> bool
    ensures { result ≡ is_one_of snapshot_events event.now }
{
    let events = ["zero-next", "write-area", "write-invalid", "flush-store"];
    is_one_of(&events, event)
}

/// The form of an event, by its word.
#[tactic(auto, unfolding(crate::specs::Forms::step_form))]
fn step_form(event: &[u8]) -> &'static str
    ensures { result.now ≡ step_form event.now }
{
    if has_number(event) {
        "step VOL issue|copy-read|copy-write|publish K"
    } else if has_snapshot(event) {
        "step VOL zero-next|write-area|write-invalid|flush-store SNAP"
    } else if event.starts_with(b"merge-") {
        "step VOL merge-group|merge-area-read|merge-read|merge-write|merge-flush|merge-commit|merge-release"
    } else {
        "step VOL issue|copy-read|copy-write|publish|zero-next|write-area|write-invalid|flush-store|merge-group"
    }
}

/// The form of a request that is started, by its kind.
#[tactic(auto, unfolding(crate::specs::Forms::start_form))]
fn start_form(kind: &[u8]) -> &'static str
    ensures { result.now ≡ start_form kind.now }
{
    if kind == b"read".as_slice() {
        "start DEV read S N"
    } else if kind == b"write".as_slice() {
        "start DEV write S DATA"
    } else {
        "start DEV read|write"
    }
}

/// The form of the end of a volume, by how many words the line has.
#[tactic(auto, unfolding(crate::specs::Forms::stop_form))]
fn stop_form(words: &[&[u8]]) -> &'static str
    ensures { result.now ≡ stop_form (texts words.now) }
{
    if words.len() > 2 {
        "stop VOL lose"
    } else {
        "stop VOL"
    }
}

/// The form of a line about a volume, by its first word; `None` for a word that is no command.
#[tactic(auto, unfolding(crate::specs::Forms::volume_form))]
fn volume_form(words: &[&[u8]]) -> Option<&'static str>
    ensures { option_copied result ≡ volume_form (texts words.now) }
{
    let verb = word_at(words, 0);
    if verb == b"start".as_slice() {
        Some(start_form(word_at(words, 2)))
    } else if verb == b"step".as_slice() {
        Some(step_form(word_at(words, 2)))
    } else if verb == b"settle".as_slice() {
        Some("settle VOL")
    } else if verb == b"merge".as_slice() {
        Some("merge SNAP")
    } else if verb == b"resume".as_slice() {
        Some("resume VOL")
    } else if verb == b"finish".as_slice() {
        Some("finish VOL")
    } else if verb == b"checkpoint".as_slice() {
        Some("checkpoint VOL")
    } else if verb == b"stop".as_slice() {
        Some(stop_form(words))
    } else if verb == b"status".as_slice() {
        Some("status DEV")
    } else if verb == b"table".as_slice() {
        Some("table DEV")
    } else if verb == b"map".as_slice() {
        Some("map SNAP")
    } else {
        None
    }
}

/// The form of a line that opens a block.
#[tactic(auto, unfolding(crate::specs::Forms::par_form))]
fn par_form(words: &[&[u8]]) -> &'static str
    ensures { result.now ≡ par_form (texts words.now) }
{
    if words.len() > 1 { "par hold K" } else { "par" }
}

/// The form of a line, by its first words; `None` for a first word that is no command.
#[tactic(auto, unfolding(crate::specs::Forms::form_of))]
pub fn form_of(words: &[&[u8]]) -> Option<&'static str>
    ensures { option_copied result ≡ form_of (texts words.now) }
{
    let verb = word_at(words, 0);
    if verb == b"disk".as_slice() {
        Some("disk NAME SECTORS")
    } else if verb == b"create".as_slice() {
        Some(create_form(words))
    } else if verb == b"remove".as_slice() {
        Some("remove NAME")
    } else if verb == b"load".as_slice() {
        Some("load DISK S DATA")
    } else if verb == b"save".as_slice() {
        Some("save DISK S N")
    } else if verb == b"copy".as_slice() {
        Some("copy DISK S DISK N")
    } else if verb == b"ls".as_slice() {
        Some("ls")
    } else if verb == b"message".as_slice() {
        Some(message_form(word_at(words, 3)))
    } else if verb == b"tick".as_slice() {
        Some("tick SECONDS")
    } else if verb == b"read".as_slice() {
        Some("read DEV S N")
    } else if verb == b"write".as_slice() {
        Some("write DEV S DATA")
    } else if verb == b"flush".as_slice() {
        Some("flush DEV")
    } else if verb == b"par".as_slice() {
        Some(par_form(words))
    } else {
        volume_form(words)
    }
}

/// The form of a line of a block, by its first words.
#[tactic(auto, unfolding(crate::specs::Forms::seat_form))]
pub fn seat_form(words: &[&[u8]]) -> &'static str
    ensures { result.now ≡ seat_form (texts words.now) }
{
    let verb = word_at(words, 1);
    if verb == b"read".as_slice() {
        "SEAT read DEV S N"
    } else if verb == b"write".as_slice() {
        "SEAT write DEV S DATA"
    } else if verb == b"merge".as_slice() {
        "SEAT merge SNAP"
    } else {
        "SEAT read|write|merge"
    }
}
