// The first line in which two texts differ.
ghost use Rattle.std.specs.Prelude.{◌≡◌, ◌↔◌, IsNone};

/// The first line that differs: its number, from 1 on, and what stands there; `None` past the end.
#[derive(Drop)]
pub struct Difference<'a> {
    pub number: u64,
    pub has: Option<&'a [u8]>,
    pub wants: Option<&'a [u8]>,
}

/// The first line in which two texts differ. `None` exactly where they are the same.
pub fn first_difference<'a>(has: &'a [u8], wants: &'a [u8]) -> Option<Difference<'a>>
    ensures { IsNone result ↔ (has.now ≡ wants.now) }
{
    if has == wants {
        return None;
    }
    let mut printed = has.split(|byte| *byte == b'\n');
    let mut wanted = wants.split(|byte| *byte == b'\n');
    let mut found = Difference {
        number: 0,
        has: None,
        wants: None,
    };
    for number in 1..u64::MAX {
        found = Difference {
            number,
            has: printed.next(),
            wants: wanted.next(),
        };
        if found.has != found.wants || found.has.is_none() {
            break;
        }
    }
    Some(found)
}
