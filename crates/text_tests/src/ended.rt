// What is said of a run that ended early.

use script_runner::{RunError, StreamError};
use std::io;
use std::io::ErrorKind;
use std::test::Fail;

#[test]
fn says_why_a_run_ended_early(rt: HostRuntime) -> Result<(), Fail> {
    for (error, words) in [
        (RunError::Memory, "out of memory"),
        (RunError::Endless, "too many lines"),
    ] {
        assert_eq!(rt; format!(in rt.alloc(); "{error}")?.as_str(), words);
    }
    let torn = RunError::Read(StreamError::of(io::Error::from(ErrorKind::UnexpectedEof)));
    assert!(rt;
        format!(in rt.alloc(); "{torn}")?
            .as_str()
            .starts_with("cannot read: ")
    );
    let full = RunError::Write(StreamError::of(io::Error::from(ErrorKind::WriteZero)));
    assert!(rt;
        format!(in rt.alloc(); "{full}")?
            .as_str()
            .starts_with("cannot write: ")
    );
    Ok(())
}
