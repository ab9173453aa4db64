use snow_base::{Bytes, Failed, Sink};

/// Where text waits to be digested. It fails on want of memory.
/// Rule: this project's own.
#[derive(Drop)]
pub struct Scratch {
    pub bytes: Bytes,
    pub faults: u64,
}

impl Sink for Scratch {
    ghost use Rattle.std.specs.Prelude.{Some};

    ghost written = { λ s. Some s.bytes };

    ghost faults = { λ s. s.faults };

    fn write(&mut self, bytes: &[u8]) -> Result<usize, Failed> {
        match self.bytes.append(bytes) {
            Ok(()) => Ok(bytes.len()),
            Err(_) => {
                self.faults = self.faults.saturating_add(1);
                Err(Failed)
            }
        }
    }
}
