//! A source over the files of the system.

ghost use Rattle.std.specs.Prelude.{◌≡◌, None, true};

use crate::failed::Failed;
use crate::source::Source;
use std::fs::File;
use std::io::Read;
use std::rt::Files;

/// A source that reads the runtime's files, named by their paths. It tells nothing of what they hold, so it
/// never answers false: a file that cannot be opened is a fault, as each error of a read is. Before a file is
/// begun it reads as an empty one does, and so does every file after `u64::MAX` faults, which no run comes to.
#[derive(Drop)]
pub struct FileSource<'a, R: Files> {
    runtime: &'a R,
    file: Option<R::File>,
    faults: u64,
}

impl<'a, R: Files> FileSource<'a, R> {
    /// A source over the files of this runtime. It opens none yet.
    pub fn new(runtime: &'a R) -> FileSource<'a, R>
        ensures { result.faults ≡ 0 }
    {
        FileSource {
            runtime,
            file: None,
            faults: 0,
        }
    }
}

impl<R: Files> Source for FileSource<'_, R> {
    ghost held = { λ _. None };

    // A read needs no file: before one is begun it gives no bytes.
    ghost is_begun = { λ _. true };

    ghost left = { λ _. None };

    ghost begun = { λ _. None };

    ghost fault_at = { λ _. None };

    ghost faults = { λ s. s.faults };

    ghost acts = { λ _. None };

    fn begin(&mut self, name: &str) -> Result<bool, Failed> {
        self.file = None;
        if self.faults == u64::MAX {
            return Ok(true);
        }
        match File::open(self.runtime, name) {
            Ok(file) => {
                self.file = Some(file);
                Ok(true)
            }
            Err(_) => {
                self.faults += 1;
                Err(Failed)
            }
        }
    }

    fn read(&mut self, buf: &mut [u8]) -> Result<usize, Failed> {
        let Some(file) = &mut self.file else {
            return Ok(0);
        };
        if self.faults == u64::MAX {
            return Ok(0);
        }
        match file.read(buf) {
            Ok(count) => Ok(count),
            Err(_) => {
                self.faults += 1;
                Err(Failed)
            }
        }
    }
}

#[cfg(test)]
mod tests {
    use super::*;
    use crate::{FetchRefusal, fetch};
    use std::test::Fail;

    #[test]
    fn reads_files_by_their_paths(rt: HostRuntime) -> Result<(), Fail> {
        let mut source = FileSource::new(&rt);
        let empty = fetch(rt.alloc(), &mut source, "/dev/null", 10)?;
        assert_eq!(rt; empty.len(), 0);
        let zeros = fetch(rt.alloc(), &mut source, "/dev/zero", 10)?;
        assert_eq!(rt; zeros.as_slice(), [0; 11].as_slice());
        let missing = fetch(rt.alloc(), &mut source, "no/such/file", 10);
        assert_eq!(rt; missing.err(), Some(FetchRefusal::Failed));
        assert_eq!(rt; source.faults, 1);
        Ok(())
    }
}
