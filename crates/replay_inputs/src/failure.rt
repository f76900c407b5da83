// What ends a program before its last line.
ghost use Rattle.std.specs.Prelude.{◌≡◌};
ghost use Rattle.replay_inputs.specs.Failure.{OfMemory};
ghost use Rattle.replay_inputs.specs.declared.failure.Failure.TheVariants.{Refused, Io};

use refusal::Refusal;
use std::alloc::{AllocError, AllocFailed};
use std::io;

// A call was refused, or memory or output failed.
#[derive(Drop)]
pub enum Failure {
    Refused(Refusal),
    Io(io::Error),
}

impl From<Refusal> for Failure {
    ghost from_gives = { λ r f. f ≡ Refused r };

    fn from(r: Refusal) -> Failure {
        Failure::Refused(r)
    }
}

impl From<io::Error> for Failure {
    ghost from_gives = { λ e f. f ≡ Io e };

    fn from(e: io::Error) -> Failure {
        Failure::Io(e)
    }
}

impl From<AllocError> for Failure {
    ghost from_gives = { λ _ f. OfMemory f };

    fn from(e: AllocError) -> Failure {
        Failure::Io(io::Error::from(e))
    }
}

impl<T: Drop> From<AllocFailed<T>> for Failure {
    ghost from_gives = { λ _ f. OfMemory f };

    fn from(e: AllocFailed<T>) -> Failure {
        Failure::from(AllocError::from(e))
    }
}

#[cfg(test)]
mod tests {
    use super::*;
    use std::io::ErrorKind;

    // Whether a failure is that of memory.
    fn of_memory(f: Failure) -> bool {
        match f {
            Failure::Refused(_) => false,
            Failure::Io(x) => x.kind() == ErrorKind::OutOfMemory,
        }
    }

    #[test]
    fn what_ended_a_program(rt: HostRuntime) {
        let refused = Failure::from(Refusal::Buffer);
        assert!(rt; matches!(refused, Failure::Refused(Refusal::Buffer)));
        let unwritten = Failure::from(io::Error::from(ErrorKind::BrokenPipe));
        assert!(rt; matches!(unwritten, Failure::Io(_)));
        assert!(rt; of_memory(Failure::from(AllocError)));
        assert!(rt; of_memory(Failure::from(AllocFailed { value: 1u8 })));
    }
}
