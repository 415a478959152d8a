// The files of the system.
use crate::{Store, StoreFault};
use std::fs;
use std::io::ErrorKind;
use std::marker::Model;
use std::rt::Files;

/// The files of the system as a store, whose names are paths. It tells nothing of what they hold. Contracts see the
/// count of faults.
#[derive(Drop)]
pub struct FileStore<R: Files + AllocGlobal + Drop> {
    rt: R,
    faults: u64,
}

impl<R: Files + AllocGlobal + Drop> Model for FileStore<R> {
    ghost use Rattle.std.specs.Prelude.{ℕ};

    ghost Value = { ℕ };

    ghost view = { λ s. s.faults };
}

impl<R: Files + AllocGlobal + Drop> FileStore<R> {
    ghost use Rattle.std.specs.Prelude.{◌≡◌};

    /// The files that a runtime, or a reference to one, gives.
    pub fn new(rt: R) -> FileStore<R>
        ensures { result ≡ 0 }
    {
        FileStore { rt, faults: 0 }
    }
}

impl<R: Files + AllocGlobal + Drop> Store for FileStore<R> {
    ghost use Rattle.std.specs.Prelude.{None};

    ghost held = { λ _. None };

    ghost faults = { λ s. s };

    fn read(&mut self, name: &str) -> Result<Vec<u8>, StoreFault> {
        match fs::read(&self.rt, name) {
            Ok(bytes) => Ok(bytes),
            Err(error) => match error.kind() {
                ErrorKind::NotFound => Err(StoreFault::Missing),
                ErrorKind::OutOfMemory => Err(StoreFault::Memory),
                _ => {
                    self.faults = self.faults.saturating_add(1);
                    Err(StoreFault::Failed)
                }
            },
        }
    }

    fn write(&mut self, name: &str, bytes: &[u8]) -> Result<(), StoreFault> {
        if fs::write(&self.rt, name, bytes).is_err() {
            self.faults = self.faults.saturating_add(1);
            return Err(StoreFault::Failed);
        }
        Ok(())
    }

    ghost text_names = { λ _. tt };
}
