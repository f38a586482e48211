// Why a line of a script cannot be carried out.
ghost use Rattle.std.specs.Prelude.{◌≡◌};
ghost use Rattle.notation.specs.declared.why.Why.TheVariants.{OutOfMemory};
ghost use Rattle.notation.specs.Refused.{of_hex};

use hex::FromHexError;
use std::alloc::{AllocError, AllocFailed};
use thiserror::Error;

// What is wrong with a line, or with what it asks.
#[derive(Clone, Copy, PartialEq, Eq, Debug, Error)]
pub enum Why {
    #[error("no such command")]
    NoCommand,
    #[error("a word is missing")]
    TooFewWords,
    #[error("a word too many")]
    TooManyWords,
    #[error("a word is out of place")]
    WordOutOfPlace,
    #[error("not a number")]
    NoNumber,
    #[error("the number does not fit")]
    TooLarge,
    #[error("not pairs of hexadecimal digits")]
    NoHex,
    #[error("the file cannot be read")]
    NoFile,
    #[error("a card cannot be filled with no bytes")]
    NoBytes,
    #[error("no card has this name")]
    NoSuchName,
    #[error("a card has this name already")]
    NameTaken,
    #[error("there are two layers already")]
    TooManyLayers,
    #[error("there is no fence to mark")]
    NoFence,
    #[error("the card has no such part")]
    NoSuchPart,
    #[error("no put, plan or clear has left a buffer")]
    NoBuffer,
    #[error("out of memory")]
    OutOfMemory,
}

// The three below are written by hand: what a derive writes does not say which case a `?` makes.

impl From<AllocError> for Why {
    ghost from_gives = { λ _ r. r ≡ OutOfMemory };

    fn from(_e: AllocError) -> Why {
        Why::OutOfMemory
    }
}

impl<T: Drop> From<AllocFailed<T>> for Why {
    ghost from_gives = { λ _ r. r ≡ OutOfMemory };

    fn from(_e: AllocFailed<T>) -> Why {
        Why::OutOfMemory
    }
}

impl From<FromHexError> for Why {
    ghost from_gives = { λ e r. r ≡ of_hex e };

    fn from(e: FromHexError) -> Why {
        match e {
            FromHexError::OutOfMemory => Why::OutOfMemory,
            _ => Why::NoHex,
        }
    }
}
