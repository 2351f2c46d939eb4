// The words that the program was given.

use std::io;

/// The words of the program's own command line, its name first. `None`, once that is told under the program's name, where they could
/// not be had.
pub fn program_words(rt: &HostRuntime, program: &str) -> Option<Vec<String>> {
    match std::env::args(rt) {
        Ok(args) => match args.collect(rt.alloc()) {
            Ok(words) => Some(words),
            Err(_) => {
                let _ = eprintln!(rt; "{program}: no memory");
                None
            }
        },
        Err(error) => {
            if error.kind() == io::ErrorKind::InvalidData {
                let _ = eprintln!(rt;
                    "{program}: wrong words: one is no UTF-8; give such a file another name by a link"
                );
            } else {
                let _ = eprintln!(rt; "{program}: {error}");
            }
            None
        }
    }
}
