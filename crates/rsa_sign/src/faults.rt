//! Why a key is refused.
ghost use Rattle.std.specs.Prelude.{◌≡◌};
ghost use Rattle.rsa_sign.specs.KeyTexts.{line_of};

use thiserror::Error;

/// Why a key is refused.
#[derive(Debug, Clone, Copy, PartialEq, Eq, Drop, Error)]
pub enum KeyFault {
    /// The modulus has fewer than 2,048 bits.
    #[error("the modulus has fewer than 2,048 bits")]
    FewBits,
    /// The modulus has more than 4,096 bits.
    #[error("the modulus has more than 4,096 bits")]
    ManyBits,
    /// The modulus is even.
    #[error("the modulus is even")]
    EvenModulus,
    /// The public exponent is 0, or has more than 64 bits.
    #[error("the public exponent is 0, or has more than 64 bits")]
    PublicExponent,
    /// The private exponent is not below the modulus.
    #[error("the private exponent is not below the modulus")]
    PrivateExponent,
    /// What the private exponent signs is not accepted under the public one.
    #[error("the exponents do not belong together")]
    Pair,
}

impl KeyFault {
    /// The line of a key's text that has the number.
    pub(crate) fn line(self) -> u8
        ensures { result ≡ line_of self }
    {
        match self {
            KeyFault::FewBits | KeyFault::ManyBits | KeyFault::EvenModulus => 1,
            KeyFault::PublicExponent => 2,
            KeyFault::PrivateExponent | KeyFault::Pair => 3,
        }
    }
}

/// Why a text gives no key pair, with the line of the fault, from 1.
#[derive(Debug, Clone, Copy, PartialEq, Eq, Drop, Error)]
pub enum TextFault {
    /// Out of memory.
    #[error("memory is short")]
    NoMemory,
    /// The text ends before this line, and a key has three.
    #[error("line {line} is missing")]
    Missing { line: u8 },
    /// There is a fourth line.
    #[error("line {line} is too much")]
    Further { line: u8 },
    /// The line is not made of hexadecimal digits, two for each octet.
    #[error("line {line} is not made of octets in hexadecimal")]
    NotHex { line: u8 },
    /// The number of the line is refused.
    #[error("line {line}: {fault}")]
    Key { line: u8, fault: KeyFault },
}
