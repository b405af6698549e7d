//! A cursor over bytes: each read takes a value from the front of what is left.

ghost use Rattle.std.specs.Prelude.{◌≡◌, ◌<◌, ◌≤◌, ◌+◌, ◌^◌, ◌↔◌, ◌⊎◌, ℕ, ℤ, List, [], length, drop, take, IfOk, OnErr, OnOk, IsErrOf, IsOkAnd};
ghost use Rattle.std.specs.Int.{w32, w64};
ghost use Rattle.lake_bytes.specs.Reading.{ReadingGives, id, byte_at, ReadsFront, ReadsWhatStands, bytes_at};
ghost use Rattle.outcomes.specs.Bytes.{IsBytes};
ghost use Rattle.lake_bytes.specs.Varint.{SpellsNumber, IsCutShort, GoesPastTen, IsTooLarge, varint_at};
ghost use Rattle.lake_bytes.specs.Zigzag.{SpellsSigned, IsTooWide, signed_at, zigzag, unzigzag};
ghost use Rattle.lake_bytes.specs.LittleEndian.{little_at, signed_little_at};

use crate::fault::ByteFault;
use crate::varint::read_varint;
use std::marker::Model;

/// Bytes, and a place in them. A contract sees a cursor as the bytes that are left behind its place.
///
/// Each read takes time that is linear in the bytes that it passes and takes no memory. After a
/// refusal the cursor stands where it stood.
#[derive(Drop)]
pub struct Cursor<'a> {
    rest: &'a [u8],
}

impl<'a> Model for Cursor<'a> {
    ghost Value = { List ℕ };

    ghost view = { λ c. c.rest.now };
}

impl<'a> Cursor<'a> {
    /// A cursor at the first of these bytes.
    pub fn new(bytes: &'a [u8]) -> Cursor<'a>
        ensures { result ≡ bytes.now }
    {
        Cursor { rest: bytes }
    }

    /// The bytes that are left.
    pub fn left(&self) -> &'a [u8]
        ensures { result.now ≡ self.now }
    {
        self.rest
    }

    /// The next `count` bytes. B1 where fewer are left.
    pub fn take(&mut self, count: usize) -> Result<&'a [u8], ByteFault>
        ensures taken { IfOk result (λ bytes. (bytes.now ≡ take count self.old) × (self.new ≡ drop count self.old)) }
        ensures short { IsErrOf result ByteFault.Short ↔ (length self.old < count) }
        ensures unchanged { OnErr result (self.new ≡ self.old) }
        ensures exact { ReadingGives (λ bytes. bytes.now) (bytes_at count self.old) self.old result self.new }
    {
        if self.rest.len() < count {
            return Err(ByteFault::Short);
        }
        let (front, rest) = self.rest.split_at(count);
        self.rest = rest;
        Ok(front)
    }

    /// The next byte. B1 where none is left.
    pub fn byte(&mut self) -> Result<u8, ByteFault>
        ensures short { IsErrOf result ByteFault.Short ↔ (self.old ≡ []) }
        ensures unchanged { OnErr result (self.new ≡ self.old) }
        ensures exact { ReadingGives id (byte_at self.old) self.old result self.new }
    {
        let Some((first, rest)) = self.rest.split_first() else {
            return Err(ByteFault::Short);
        };
        let byte = *first;
        self.rest = rest;
        Ok(byte)
    }

    /// The varint in front, shortest or not, of at most ten bytes (Thrift compact protocol, ULEB128).
    ///
    /// B1 where the bytes end before it does, B2 where its tenth byte says that it goes on, B3 where its
    /// number needs more than 64 bits.
    pub fn varint(&mut self) -> Result<u64, ByteFault>
        ensures read { IfOk result (λ n. ReadsFront SpellsNumber self.old n self.new) }
        ensures whatever_stands { ReadsWhatStands SpellsNumber self.old result self.new }

        ensures short { IsErrOf result ByteFault.Short ↔ IsCutShort self.old }
        ensures too_long { IsErrOf result ByteFault.VarintTooLong ↔ GoesPastTen self.old }
        ensures out_of_range { IsErrOf result ByteFault.OutOfRange ↔ IsTooLarge self.old }
        ensures unchanged { OnErr result (self.new ≡ self.old) }

        // Which of these it is, as reading from the left.
        ensures exact { ReadingGives id (varint_at self.old) self.old result self.new }
    {
        self.next_varint()
    }

    /// The varint in front, as reading from the left has it.
    fn next_varint(&mut self) -> Result<u64, ByteFault>
        ensures exact { ReadingGives id (varint_at self.old) self.old result self.new }
        ensures bytes { IsBytes self.old }
    {
        let (number, rest) = read_varint(self.rest)?;
        self.rest = rest;
        Ok(number)
    }

    /// The signed number of 64 bits in front: a varint, by zigzag (Thrift compact protocol).
    ///
    /// B1 to B3 as for [`Cursor::varint`].
    pub fn zigzag_i64(&mut self) -> Result<i64, ByteFault>
        ensures read { IfOk result (λ z. ReadsFront (SpellsSigned 64) self.old z self.new) }
        ensures whatever_stands { ReadsWhatStands (SpellsSigned 64) self.old result self.new }

        ensures short { IsErrOf result ByteFault.Short ↔ IsCutShort self.old }
        ensures too_long { IsErrOf result ByteFault.VarintTooLong ↔ GoesPastTen self.old }
        ensures out_of_range { IsErrOf result ByteFault.OutOfRange ↔ (IsTooLarge self.old ⊎ IsTooWide 64 self.old) }
        ensures unchanged { OnErr result (self.new ≡ self.old) }
        ensures exact { ReadingGives id (signed_at 64 self.old) self.old result self.new }
    {
        self.next_i64()
    }

    /// The signed number of 32 bits in front, by zigzag. B3 also where the number needs more bits.
    pub fn zigzag_i32(&mut self) -> Result<i32, ByteFault>
        ensures read { IfOk result (λ z. ReadsFront (SpellsSigned 32) self.old z self.new) }
        ensures whatever_stands { ReadsWhatStands (SpellsSigned 32) self.old result self.new }

        ensures short { IsErrOf result ByteFault.Short ↔ IsCutShort self.old }
        ensures too_long { IsErrOf result ByteFault.VarintTooLong ↔ GoesPastTen self.old }
        ensures out_of_range { IsErrOf result ByteFault.OutOfRange ↔ (IsTooLarge self.old ⊎ IsTooWide 32 self.old) }
        ensures unchanged { OnErr result (self.new ≡ self.old) }
        ensures exact { ReadingGives id (signed_at 32 self.old) self.old result self.new }
    {
        self.next_i32()
    }

    /// The signed number of 16 bits in front, by zigzag. B3 also where the number needs more bits.
    pub fn zigzag_i16(&mut self) -> Result<i16, ByteFault>
        ensures read { IfOk result (λ z. ReadsFront (SpellsSigned 16) self.old z self.new) }
        ensures whatever_stands { ReadsWhatStands (SpellsSigned 16) self.old result self.new }

        ensures short { IsErrOf result ByteFault.Short ↔ IsCutShort self.old }
        ensures too_long { IsErrOf result ByteFault.VarintTooLong ↔ GoesPastTen self.old }
        ensures out_of_range { IsErrOf result ByteFault.OutOfRange ↔ (IsTooLarge self.old ⊎ IsTooWide 16 self.old) }
        ensures unchanged { OnErr result (self.new ≡ self.old) }
        ensures exact { ReadingGives id (signed_at 16 self.old) self.old result self.new }
    {
        self.next_i16()
    }

    fn next_i64(&mut self) -> Result<i64, ByteFault>
        ensures exact { ReadingGives id (signed_at 64 self.old) self.old result self.new }
        ensures bytes { IsBytes self.old }
    {
        self.signed(u64::MAX)
    }

    fn next_i32(&mut self) -> Result<i32, ByteFault>
        ensures exact { ReadingGives id (signed_at 32 self.old) self.old result self.new }
        ensures bytes { IsBytes self.old }
    {
        match self.signed(0xffff_ffff) {
            Ok(number) => Ok(number as i32),
            Err(fault) => Err(fault),
        }
    }

    fn next_i16(&mut self) -> Result<i16, ByteFault>
        ensures exact { ReadingGives id (signed_at 16 self.old) self.old result self.new }
        ensures bytes { IsBytes self.old }
    {
        match self.signed(0xffff) {
            Ok(number) => Ok(number as i16),
            Err(fault) => Err(fault),
        }
    }

    /// The signed number in front, by zigzag, whose zigzag number is at most `highest`.
    #[tactic(auto, unfolding(crate::specs::Zigzag::signed_at))]
    fn signed(&mut self, highest: u64) -> Result<i64, ByteFault>
        ensures exact { (width : ℕ) → highest + 1 ≡ 2 ^ width → ReadingGives id (signed_at width self.old) self.old result self.new }
        ensures fits { IfOk result (λ z. zigzag z ≤ highest) }
        ensures bytes { IsBytes self.old }
    {
        let (number, rest) = read_varint(self.rest)?;
        if number > highest {
            return Err(ByteFault::OutOfRange);
        }
        self.rest = rest;
        Ok(unzigzag(number))
    }

    /// The unsigned number of four bytes in front, the low byte first. B1 where fewer are left.
    #[tactic(auto, unfolding(crate::specs::LittleEndian::little_at))]
    pub fn u32_le(&mut self) -> Result<u32, ByteFault>
        ensures short { IsErrOf result ByteFault.Short ↔ (length self.old < 4) }
        ensures unchanged { OnErr result (self.new ≡ self.old) }
        ensures exact { ReadingGives id (little_at w32 self.old) self.old result self.new }
    {
        let Some((bytes, rest)) = self.rest.split_first_chunk::<4>() else {
            return Err(ByteFault::Short);
        };
        let number = u32::from_le_bytes(*bytes);
        self.rest = rest;
        Ok(number)
    }

    /// The number of four bytes in front, in two's complement, the low byte first. B1 where fewer are left.
    #[tactic(auto, unfolding(crate::specs::LittleEndian::little_at, crate::specs::LittleEndian::signed_little_at))]
    pub fn i32_le(&mut self) -> Result<i32, ByteFault>
        ensures short { IsErrOf result ByteFault.Short ↔ (length self.old < 4) }
        ensures unchanged { OnErr result (self.new ≡ self.old) }
        ensures exact { ReadingGives id (signed_little_at w32 self.old) self.old result self.new }
    {
        let Some((bytes, rest)) = self.rest.split_first_chunk::<4>() else {
            return Err(ByteFault::Short);
        };
        let number = i32::from_le_bytes(*bytes);
        self.rest = rest;
        Ok(number)
    }

    /// The number of eight bytes in front, in two's complement, the low byte first. B1 where fewer are left.
    #[tactic(auto, unfolding(crate::specs::LittleEndian::little_at, crate::specs::LittleEndian::signed_little_at))]
    pub fn i64_le(&mut self) -> Result<i64, ByteFault>
        ensures short { IsErrOf result ByteFault.Short ↔ (length self.old < 8) }
        ensures unchanged { OnErr result (self.new ≡ self.old) }
        ensures exact { ReadingGives id (signed_little_at w64 self.old) self.old result self.new }
    {
        let Some((bytes, rest)) = self.rest.split_first_chunk::<8>() else {
            return Err(ByteFault::Short);
        };
        let number = i64::from_le_bytes(*bytes);
        self.rest = rest;
        Ok(number)
    }
}

/// The signed number that a zigzag number stands for: 0, 1, 2, 3 are 0, -1, 1, -2.
fn unzigzag(number: u64) -> i64
    ensures value { result ≡ unzigzag number }
    ensures back { zigzag result ≡ number }
{
    let half = (number / 2) as i64;
    if number % 2 == 0 { half } else { -half - 1 }
}
