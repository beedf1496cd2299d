use super::*;
use std::env::FillError;
use std::test::Fail;

// What a program started as `seastore steps twice` is told.
#[derive(Drop)]
struct Started;

impl Env for Started {
    fn arg(&self, i: usize, buf: &mut [u8]) -> Result<usize, FillError> {
        let arg = match i {
            0 => "seastore",
            1 => "steps",
            2 => "twice",
            _ => return Err(FillError::NotPresent),
        };
        let room = buf.get_mut(..arg.len()).ok_or(FillError::TooLong)?;
        room.copy_from_slice(arg.as_bytes());
        Ok(arg.len())
    }

    fn var(&self, _name: &str, _buf: &mut [u8]) -> Result<usize, FillError> {
        Err(FillError::NotPresent)
    }

    fn var_at(&self, _i: usize, _buf: &mut [u8]) -> Result<usize, FillError> {
        Err(FillError::NotPresent)
    }
}

#[test]
fn the_name_is_no_word(rt: HostRuntime) -> Result<(), Fail> {
    let words = words(&(Started, rt.alloc()))?;
    assert_eq!(rt; words.len(), 2);
    assert_eq!(rt; words[0].as_str(), "steps");
    assert_eq!(rt; words[1].as_str(), "twice");
    Ok(())
}

// A test is no `steps`, whatever words it was started with.
#[test]
fn other_words_end_with_the_status_of_usage(rt: HostRuntime) {
    assert_eq!(rt; run(&rt).report(&rt), ExitCode::from(1));
}
