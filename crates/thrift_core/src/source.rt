//! Numbers and headers, read from the bytes that are left.

ghost use Rattle.std.specs.Prelude.{◌≡◌, length};
ghost use Rattle.lake_bytes.specs.Reading.{id};
ghost use Rattle.thrift_core.specs.Reading.{ReadsExactly, Counts, byte_ahead, varint_ahead, signed_ahead, bytes_ahead, counted, bounded_size, list_header_ahead, map_header_ahead, id_ahead};

use crate::wire::WireType;
use lake_bytes::{ByteFault, Cursor};
use thrift_values::ThriftFault;

/// The bytes that are left, and how many values may still come.
#[derive(Drop)]
pub(crate) struct Source<'a> {
    pub(crate) cursor: Cursor<'a>,
    pub(crate) nodes: u32,
}

impl<'a> Source<'a> {
    pub(crate) fn byte(&mut self) -> Result<u8, ThriftFault>
        ensures { ReadsExactly id (byte_ahead self.old) result self.new }
    {
        Ok(self.cursor.byte()?)
    }

    pub(crate) fn varint(&mut self) -> Result<u64, ThriftFault>
        ensures { ReadsExactly id (varint_ahead self.old) result self.new }
    {
        Ok(self.cursor.varint()?)
    }

    pub(crate) fn int16(&mut self) -> Result<i16, ThriftFault>
        ensures { ReadsExactly id (signed_ahead 16 self.old) result self.new }
    {
        Ok(self.cursor.zigzag_i16()?)
    }

    pub(crate) fn int32(&mut self) -> Result<i32, ThriftFault>
        ensures { ReadsExactly id (signed_ahead 32 self.old) result self.new }
    {
        Ok(self.cursor.zigzag_i32()?)
    }

    pub(crate) fn int64(&mut self) -> Result<i64, ThriftFault>
        ensures { ReadsExactly id (signed_ahead 64 self.old) result self.new }
    {
        Ok(self.cursor.zigzag_i64()?)
    }

    pub(crate) fn bytes(&mut self, count: u64) -> Result<&'a [u8], ThriftFault>
        ensures { ReadsExactly (λ bytes. bytes.now) (bytes_ahead count self.old) result self.new }
    {
        Ok(self.cursor.take(count as usize)?)
    }

    /// A value begins.
    #[tactic(auto, unfolding(crate::specs::Reading::counted))]
    pub(crate) fn count(&mut self) -> Result<(), ThriftFault>
        ensures { Counts (counted self.old) result self.new }
    {
        if self.nodes == 0 {
            return Err(ThriftFault::TooMany);
        }
        self.nodes -= 1;
        Ok(())
    }

    /// Tests a size against the bytes that are left.
    #[tactic(auto, unfolding(crate::specs::Reading::bounded_size))]
    fn bounded_size(&mut self, size: u64) -> Result<u64, ThriftFault>
        ensures { ReadsExactly id (bounded_size size self.old) result self.new }
    {
        if (self.cursor.left().len() as u64) < size {
            return Err(ByteFault::Short.into());
        }
        Ok(size)
    }

    /// The type of a list's members, and how many there are.
    #[tactic(auto, unfolding(crate::specs::Reading::list_header_ahead))]
    pub(crate) fn list_header(&mut self) -> Result<(WireType, u64), ThriftFault>
        ensures { ReadsExactly id (list_header_ahead self.old) result self.new }
    {
        let header = self.byte()?;
        let member = WireType::from_number(header % 16)?;
        let size = if header / 16 == 15 {
            self.varint()?
        } else {
            u64::from(header / 16)
        };
        let count = self.bounded_size(size)?;
        Ok((member, count))
    }

    /// The types of a map's keys and values, and how many entries there are.
    #[tactic(auto, unfolding(crate::specs::Reading::map_header_ahead))]
    pub(crate) fn map_header(&mut self) -> Result<(WireType, WireType, u64), ThriftFault>
        ensures { ReadsExactly id (map_header_ahead self.old) result self.new }
    {
        let size = self.varint()?;
        let count = self.bounded_size(size)?;
        if count == 0 {
            return Ok((WireType::Boolean, WireType::Boolean, 0));
        }
        let types = self.byte()?;
        let key = WireType::from_number(types / 16)?;
        let value = WireType::from_number(types % 16)?;
        Ok((key, value, count))
    }

    /// A field's id: so much above the last one, or in full where the rise is 0.
    #[tactic(auto, unfolding(crate::specs::Reading::id_ahead))]
    pub(crate) fn field_id(&mut self, rise: u8, last: i16) -> Result<i16, ThriftFault>
        ensures { ReadsExactly id (id_ahead rise last self.old) result self.new }
    {
        if rise == 0 {
            return self.int16();
        }
        if last > i16::MAX - i16::from(rise) {
            return Err(ByteFault::OutOfRange.into());
        }
        Ok(last + i16::from(rise))
    }
}
