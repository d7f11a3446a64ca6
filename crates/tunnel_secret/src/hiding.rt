//! Hiding attribute values, and revealing them.

ghost use Rattle.std.specs.Prelude.{◌≡◌, ℕ, ◌+◌, ◌≤◌, List, length, take, Ok, Err, IfOk, IfErr};
ghost use Rattle.wire_base.specs.Answers.{Gives};
ghost use Rattle.tunnel_secret.specs.Hiding.{xored, cipher_block, first_mask, next_mask, text_of, plain_text, hidden};
ghost use Rattle.tunnel_secret.specs.declared.error.UnhideError.TheVariants.{BadLength};
ghost use Rattle.tunnel_secret.specs.Holding.{HoldsValue, IsPlainFault, Hides, HidesNone, IsFault};
ghost use Rattle.tunnel_secret.specs.Revealing.{Told, value_of, unhidden};

use crate::error::UnhideError;
use md5::{Digest, Md5};
use std::alloc::Global;
use wire_base::{Bytes, NoMemory, put_u16, take_u16};

/// How many bytes a block has, but the last, which may have fewer.
const BLOCK: usize = 16;

/// Which of the two texts is made of the other.
#[derive(Clone, Copy)]
enum Direction {
    /// Cipher text is made of plain text.
    Hide,
    /// Plain text is made of cipher text.
    Unhide,
}

impl Direction {
    /// The block of cipher text, of the block that is given and the one that is made of it.
    fn cipher_block<'a>(self, given: &'a [u8], made: &'a [u8]) -> &'a [u8]
        ensures { result.now ≡ cipher_block self given.now made.now }
    {
        match self {
            Direction::Hide => made,
            Direction::Unhide => given,
        }
    }
}

/// The mask of the first block.
#[tactic(auto, unfolding(wire_base::specs::Numbers::u16_bytes))]
fn make_first_mask(attribute: u16, secret: &[u8], vector: &[u8]) -> [u8; 16]
    ensures { result ≡ first_mask attribute secret.now vector.now }
{
    let mut digest = Md5::new();
    digest.update(&attribute.to_be_bytes());
    digest.update(secret);
    digest.update(vector);
    digest.finalize()
}

/// The mask of the block behind a block of cipher text.
fn make_next_mask(secret: &[u8], cipher: &[u8]) -> [u8; 16]
    ensures { result ≡ next_mask secret.now cipher.now }
{
    let mut digest = Md5::new();
    digest.update(secret);
    digest.update(cipher);
    digest.finalize()
}

/// A mask with a block xored into its front.
fn xor_into(mask: &[u8; 16], block: &[u8]) -> [u8; 16]
    requires { length block.now ≤ 16 }
    ensures { take (length block.now) result ≡ xored mask.now block.now }
{
    let mut cells = *mask;
    for i in 0..block.len() {
        cells[i] ^= block[i];
    }
    cells
}

/// What is made of a text, block by block from the front.
fn transform(
    alloc: Global,
    direction: Direction,
    attribute: u16,
    secret: &[u8],
    vector: &[u8],
    text: &[u8],
) -> Result<Bytes, NoMemory>
    ensures { IfOk result (λ made. made ≡ text_of direction secret.now
        (first_mask attribute secret.now vector.now) text.now) }
{
    let mut out = Bytes::new(alloc);
    let mut mask = make_first_mask(attribute, secret, vector);
    let mut rest = text;
    while !rest.is_empty() {
        let (block, behind) = rest.split_at(rest.len().min(BLOCK));
        let cells = xor_into(&mask, block);
        let made = &cells[..block.len()];
        out.push_slice(made)?;
        mask = make_next_mask(secret, direction.cipher_block(block, made));
        rest = behind;
    }
    Ok(out)
}

/// The plain text of a value: its length in two bytes, the value, and zeros.
fn write_plain(alloc: Global, value: &[u8], padding: usize) -> Result<Bytes, NoMemory>
    requires { 2 + length value.now + padding ≤ 1017 }
    ensures { IfOk result (λ plain. plain ≡ plain_text value.now padding) }
{
    let mut plain = Bytes::new(alloc);
    put_u16(&mut plain, value.len() as u16)?;
    plain.push_slice(value)?;
    let zeros = [0u8; 1015];
    plain.push_slice(&zeros[..padding])?;
    Ok(plain)
}

/// The value in a plain text.
fn read_plain(alloc: Global, plain: &[u8]) -> Result<Bytes, UnhideError>
    ensures exact { Gives Told (λ v. v) result (value_of plain.now) }
    ensures found { IfOk result (λ v. HoldsValue v plain.now) }
    ensures fault { IfErr result (IsPlainFault plain.now) }
{
    let Ok(said) = take_u16(plain, 0) else {
        return Err(UnhideError::BadLength { said: 0, have: 0 });
    };
    let said = usize::from(said);
    let (_, behind) = plain.split_at(2);
    let have = behind.len();
    if have < said {
        return Err(UnhideError::BadLength { said, have });
    }
    Ok(Bytes::from_slice(alloc, &behind[..said])?)
}

/// The value of an attribute, hidden by a secret and a random vector (RFC 2661 section 4.3), with as many zeros behind it
/// as padding. The value and the padding have at most 1,015 bytes together; the result has two more.
pub fn hide(
    alloc: Global,
    attribute: u16,
    secret: &[u8],
    vector: &[u8],
    value: &[u8],
    padding: usize,
) -> Result<Bytes, NoMemory>
    requires { 2 + length value.now + padding ≤ 1017 }
    ensures exact { IfOk result (λ cipher. cipher ≡ hidden attribute secret.now vector.now value.now padding) }
    // For callers: it fits a pair.
    ensures len { IfOk result (λ cipher. length cipher ≡ 2 + length value.now + padding) }
{
    let plain = write_plain(alloc, value, padding)?;
    transform(
        alloc,
        Direction::Hide,
        attribute,
        secret,
        vector,
        plain.as_slice(),
    )
}

/// The value that was hidden (RFC 2661 section 4.3). The padding behind it is ignored, whatever it is.
pub fn unhide(
    alloc: Global,
    attribute: u16,
    secret: &[u8],
    vector: &[u8],
    cipher: &[u8],
) -> Result<Bytes, UnhideError>
    // The cipher text hides the value that is given.
    ensures found { IfOk result (λ v. Hides attribute secret.now vector.now v cipher.now) }
    // The length that is told is that of the plain text, and is wrong there.
    ensures fault { IfErr result (IsFault attribute secret.now vector.now cipher.now) }
    // A value that it hides is given, unless memory runs out.
    ensures only { (v : List ℕ) → Hides attribute secret.now vector.now v cipher.now →
        Gives Told (λ x. x) result (Ok v) }
    // A length that is wrong is told, unless memory runs out.
    ensures told { (said have : ℕ) → HidesNone attribute secret.now vector.now cipher.now said have →
        Gives Told (λ x. x) result (Err (BadLength said have)) }
    // For callers: the answer as a function of the cipher text.
    ensures exact { Gives Told (λ v. v) result (unhidden attribute secret.now vector.now cipher.now) }
{
    let plain = transform(alloc, Direction::Unhide, attribute, secret, vector, cipher)?;
    read_plain(alloc, plain.as_slice())
}

/// A law: what was hidden is revealed again with the same secret and vector, whatever they are.
pub fn unhides_what_was_hidden()
    ensures { (attribute : ℕ) (secret vector value : List ℕ) (padding : ℕ) → 2 + length value + padding ≤ 1017 →
        unhidden attribute secret vector (hidden attribute secret vector value padding) ≡ Ok value }
{}
