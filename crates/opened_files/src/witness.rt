// The files that are served are watched.
ghost use Rattle.std.specs.Prelude.{◌≡◌, None};
ghost use Rattle.std.specs.Option.{is_some};

use crate::kept::Kept;
use cow_nbd::Watch;

/// The files of an origin and its store while they are served.
#[derive(Drop)]
pub struct Witness<'a> {
    origin: Kept<'a>,
    cow: Kept<'a>,
    /// The name of one that has changed.
    changed: Option<&'a str>,
}

impl<'a> Witness<'a> {
    /// Two files that are as they were.
    pub fn new(origin: Kept<'a>, cow: Kept<'a>) -> Witness<'a>
        ensures { result.changed ≡ None }
    {
        Witness {
            origin,
            cow,
            changed: None,
        }
    }

    /// The name of one that was seen to have changed.
    pub fn changed(&self) -> Option<&'a str>
        ensures { result ≡ self.now.changed }
    {
        self.changed
    }

    /// The name of one that has changed now.
    fn look(&self) -> Option<&'a str> {
        if self.origin.has_changed() {
            return Some(self.origin.name);
        }
        if self.cow.has_changed() {
            return Some(self.cow.name);
        }
        None
    }
}

impl Watch for Witness<'_> {
    ghost may_change = { λ _. Unit {0} };

    ghost has_told = { λ files. is_some files.changed };

    fn has_changed(&mut self) -> bool {
        if self.changed.is_none() {
            self.changed = self.look();
        }
        self.changed.is_some()
    }
}
