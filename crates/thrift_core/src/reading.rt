//! Trees, read from the left.

ghost use Rattle.std.specs.Prelude.{◌≡◌, ℕ, ◌+◌, List, ◌++◌, length, pos, Ok, IfOk, IfErr, OnErr};
ghost use Rattle.lake_bytes.specs.Reading.{ReadsFront};
ghost use Rattle.outcomes.specs.Bytes.{IsBytes};
ghost use Rattle.thrift_values.specs.Tree.{Tree};
ghost use Rattle.thrift_core.specs.Spelling.{SpellsStruct};
ghost use Rattle.thrift_core.specs.Reading.{Reads, ReadsExactly, ThriftGives, struct_at, boolean_ahead, byte_number_ahead, integer_ahead, double_ahead, binary_ahead, flag_ahead, value_ahead, repeated, entry_ahead, field_ahead, fields_ahead, list_ahead, map_ahead, struct_ahead};
ghost use Rattle.thrift_values.specs.View.{view, views, entry_view, entry_views, field_views};

use crate::source::Source;
use crate::wire::WireType;
use lake_bytes::{ByteFault, Cursor};
use std::alloc::Allocator;
use thrift_values::{Field, MapEntry, ReadError, TValue, ThriftFault};

/// The most structs, lists and maps that may stand in one another, the outermost counted.
pub const MAX_DEPTH: u32 = 32;

/// The most values that a tree may have.
pub const MAX_NODES: u32 = 262_144;

/// Reads the struct in front of the cursor (Thrift compact protocol, "Struct encoding"). All types from 1
/// to 12 are read, headers and varints also where shorter ones would do. Of a struct the fields stand in
/// the order of the bytes; a double is skipped.
///
/// B1 where the bytes end within the struct, or a size is above the bytes that are left. B2 and B3 where a
/// number can't be read or is out of its type's range. TH1 for another type number, and for a boolean in a
/// list, a set or a map that is neither 0, 1 nor 2. TH2 where more than [`MAX_DEPTH`] structs, lists and maps
/// stand in one another, and TH3 for more than [`MAX_NODES`] values. After a refusal the cursor stands where
/// it stood, and so it does where `alloc` refuses a growth.
///
/// The tree lies in the memory of `alloc`. The time is linear in the bytes that are read, the memory in the values.
pub fn read_struct<A: Allocator + Copy>(
    alloc: A,
    cursor: &mut Cursor<'_>,
) -> Result<TValue<A>, ReadError>
    // A front of the bytes spells the tree, and the bytes behind it are left.
    ensures found { IfOk result (λ tree. ReadsFront SpellsStruct cursor.old (view tree) cursor.new) }
    // A tree that a front of the bytes spells is read, unless memory runs out.
    ensures only { (front rest : List ℕ) (t : Tree) → SpellsStruct front t → cursor.old ≡ front ++ rest
        → ThriftGives view (Ok (t, rest)) cursor.old result cursor.new }
    ensures unchanged { OnErr result (cursor.new ≡ cursor.old) }
    // Which fault it is: the first one, as reading from the left meets it.
    ensures exact { ThriftGives view (struct_at cursor.old) cursor.old result cursor.new }
{
    next_struct(alloc, cursor)
}

/// The struct in front of the cursor, as reading from the left has it.
#[tactic(auto, unfolding(crate::specs::Reading::struct_at))]
fn next_struct<A: Allocator + Copy>(
    alloc: A,
    cursor: &mut Cursor<'_>,
) -> Result<TValue<A>, ReadError>
    ensures exact { ThriftGives view (struct_at cursor.old) cursor.old result cursor.new }
    ensures bytes { IsBytes cursor.old }
{
    let left = cursor.left();
    let mut source = Source {
        cursor: Cursor::new(left),
        nodes: MAX_NODES,
    };
    let tree = source.value(alloc, MAX_DEPTH, WireType::Struct)?;
    let Source {
        cursor: rest,
        nodes: _,
    } = source;
    *cursor = rest;
    Ok(tree)
}

impl<'a> Source<'a> {
    /// A boolean in a list, a set or a map.
    #[tactic(auto, unfolding(crate::specs::Reading::boolean_ahead))]
    fn boolean<A: Allocator>(&mut self) -> Result<TValue<A>, ThriftFault>
        ensures { ReadsExactly view (boolean_ahead self.old) result self.new }
    {
        let byte = self.byte()?;
        if byte == 1 {
            return Ok(TValue::Bool(true));
        }
        if byte < 3 {
            return Ok(TValue::Bool(false));
        }
        Err(ThriftFault::BadType)
    }

    #[tactic(auto, unfolding(crate::specs::Reading::byte_number_ahead))]
    fn byte_number<A: Allocator>(&mut self) -> Result<TValue<A>, ThriftFault>
        ensures { ReadsExactly view (byte_number_ahead self.old) result self.new }
    {
        let byte = self.byte()?;
        Ok(TValue::Int(i64::from(byte.cast_signed())))
    }

    #[tactic(auto, unfolding(crate::specs::Reading::integer_ahead))]
    fn int16_number<A: Allocator>(&mut self) -> Result<TValue<A>, ThriftFault>
        ensures { ReadsExactly view (integer_ahead 16 self.old) result self.new }
    {
        let number = self.int16()?;
        Ok(TValue::Int(i64::from(number)))
    }

    #[tactic(auto, unfolding(crate::specs::Reading::integer_ahead))]
    fn int32_number<A: Allocator>(&mut self) -> Result<TValue<A>, ThriftFault>
        ensures { ReadsExactly view (integer_ahead 32 self.old) result self.new }
    {
        let number = self.int32()?;
        Ok(TValue::Int(i64::from(number)))
    }

    #[tactic(auto, unfolding(crate::specs::Reading::integer_ahead))]
    fn int64_number<A: Allocator>(&mut self) -> Result<TValue<A>, ThriftFault>
        ensures { ReadsExactly view (integer_ahead 64 self.old) result self.new }
    {
        let number = self.int64()?;
        Ok(TValue::Int(number))
    }

    /// A double, of which nothing is kept.
    #[tactic(auto, unfolding(crate::specs::Reading::double_ahead))]
    fn double<A: Allocator>(&mut self) -> Result<TValue<A>, ThriftFault>
        ensures { ReadsExactly view (double_ahead self.old) result self.new }
    {
        self.bytes(8)?;
        Ok(TValue::Skipped)
    }

    #[tactic(auto, unfolding(crate::specs::Reading::binary_ahead))]
    fn binary<A: Allocator + Copy>(&mut self, alloc: A) -> Result<TValue<A>, ReadError>
        ensures { Reads view (binary_ahead self.old) result self.new }
    {
        let size = self.varint()?;
        let text = self.bytes(size)?;
        Ok(TValue::Bytes(Vec::from_slice(alloc, text)?))
    }

    /// A boolean field, whose value is its type.
    #[tactic(auto, unfolding(crate::specs::Reading::flag_ahead))]
    fn flag<A: Allocator>(&mut self, value: bool) -> Result<TValue<A>, ThriftFault>
        ensures { ReadsExactly view (flag_ahead value self.old) result self.new }
    {
        self.count()?;
        Ok(TValue::Bool(value))
    }

    /// A value of a type, in which structs, lists and maps may nest so deep.
    #[cycle(read)]
    #[tactic(auto, unfolding(crate::specs::Reading::value_ahead, crate::specs::Reading::content_ahead))]
    pub(crate) fn value<A: Allocator + Copy>(
        &mut self,
        alloc: A,
        depth: u32,
        wire: WireType,
    ) -> Result<TValue<A>, ReadError>
        ensures { Reads view (value_ahead depth wire self.old) result self.new }
    {
        self.count()?;
        match wire {
            WireType::Boolean => Ok(self.boolean()?),
            WireType::Byte => Ok(self.byte_number()?),
            WireType::Int16 => Ok(self.int16_number()?),
            WireType::Int32 => Ok(self.int32_number()?),
            WireType::Int64 => Ok(self.int64_number()?),
            WireType::Double => Ok(self.double()?),
            WireType::Binary => self.binary(alloc),
            WireType::List => self.list(alloc, deeper(depth)?),
            WireType::Map => self.map(alloc, deeper(depth)?),
            WireType::Struct => self.structure(alloc, deeper(depth)?),
        }
    }

    #[cycle(read)]
    #[tactic(auto, unfolding(crate::specs::Reading::list_ahead))]
    fn list<A: Allocator + Copy>(&mut self, alloc: A, depth: u32) -> Result<TValue<A>, ReadError>
        ensures { Reads view (list_ahead (value_ahead depth) self.old) result self.new }
    {
        let (member, size) = self.list_header()?;
        let members = self.members(alloc, depth, member, size)?;
        Ok(TValue::List(members))
    }

    #[cycle(read)]
    #[tactic(auto, unfolding(crate::specs::Reading::map_ahead))]
    fn map<A: Allocator + Copy>(&mut self, alloc: A, depth: u32) -> Result<TValue<A>, ReadError>
        ensures { Reads view (map_ahead (value_ahead depth) self.old) result self.new }
    {
        let (key, value, size) = self.map_header()?;
        let entries = self.entries(alloc, depth, key, value, size)?;
        Ok(TValue::Map(entries))
    }

    #[cycle(read)]
    #[tactic(auto, unfolding(crate::specs::Reading::struct_ahead))]
    fn structure<A: Allocator + Copy>(
        &mut self,
        alloc: A,
        depth: u32,
    ) -> Result<TValue<A>, ReadError>
        ensures { Reads view (struct_ahead (value_ahead depth) self.old) result self.new }
    {
        let fields = self.fields(alloc, depth)?;
        Ok(TValue::Struct(fields))
    }

    /// So many members of one type.
    #[cycle(read)]
    fn members<A: Allocator + Copy>(
        &mut self,
        alloc: A,
        depth: u32,
        wire: WireType,
        size: u64,
    ) -> Result<Vec<TValue<A>, A>, ReadError>
        ensures { Reads (λ v. views v.items) (repeated (value_ahead depth wire) size self.old) result self.new }
    {
        let mut members = Vec::new(alloc);
        for _ in 0..size {
            let member = self.value(alloc, depth, wire)?;
            members.push(member)?;
        }
        Ok(members)
    }

    /// So many keys and values.
    #[cycle(read)]
    fn entries<A: Allocator + Copy>(
        &mut self,
        alloc: A,
        depth: u32,
        key: WireType,
        value: WireType,
        size: u64,
    ) -> Result<Vec<MapEntry<A>, A>, ReadError>
        ensures { Reads (λ v. entry_views v.items) (repeated (entry_ahead (value_ahead depth) key value) size self.old) result self.new }
    {
        let mut entries = Vec::new(alloc);
        for _ in 0..size {
            let entry = self.entry(alloc, depth, key, value)?;
            entries.push(entry)?;
        }
        Ok(entries)
    }

    #[cycle(read)]
    #[tactic(auto, unfolding(crate::specs::Reading::entry_ahead))]
    fn entry<A: Allocator + Copy>(
        &mut self,
        alloc: A,
        depth: u32,
        key: WireType,
        value: WireType,
    ) -> Result<MapEntry<A>, ReadError>
        ensures { Reads entry_view (entry_ahead (value_ahead depth) key value self.old) result self.new }
    {
        let key = self.value(alloc, depth, key)?;
        let value = self.value(alloc, depth, value)?;
        Ok(MapEntry { key, value })
    }

    /// The fields up to the byte 0.
    #[cycle(read)]
    fn fields<A: Allocator + Copy>(
        &mut self,
        alloc: A,
        depth: u32,
    ) -> Result<Vec<Field<A>, A>, ReadError>
        ensures { Reads (λ v. field_views v.items) (fields_ahead (value_ahead depth) (pos 0) (length self.old.cursor) self.old) result self.new }
    {
        let mut fields = Vec::new(alloc);
        let mut last = 0;
        // A field takes a byte at least, so there are no more than bytes left.
        for _ in 0..self.cursor.left().len() {
            let header = self.byte()?;
            if header == 0 {
                return Ok(fields);
            }
            let (id, value) = self.field(alloc, depth, last, header)?;
            fields.push(Field { id, value })?;
            last = id;
        }
        Err(ByteFault::Short.into())
    }

    /// A field behind the first byte of its header.
    #[cycle(read)]
    #[tactic(auto, unfolding(crate::specs::Reading::field_ahead))]
    fn field<A: Allocator + Copy>(
        &mut self,
        alloc: A,
        depth: u32,
        last: i16,
        header: u8,
    ) -> Result<(i16, TValue<A>), ReadError>
        ensures { Reads (λ x. (x.0, view x.1)) (field_ahead (value_ahead depth) last header self.old) result self.new }
    {
        let number = header % 16;
        let wire = WireType::from_number(number)?;
        let id = self.field_id(header / 16, last)?;
        let value = match number {
            1 => self.flag(true)?,
            2 => self.flag(false)?,
            _ => self.value(alloc, depth, wire)?,
        };
        Ok((id, value))
    }
}

/// The nesting that is left inside a struct, a list or a map. TH2 where none is left.
fn deeper(depth: u32) -> Result<u32, ThriftFault>
    ensures inside { IfOk result (λ less. depth ≡ less + 1) }
    ensures too_deep { IfErr result (λ fault. (depth ≡ 0) × (fault ≡ ThriftFault.TooDeep)) }
{
    if depth == 0 {
        return Err(ThriftFault::TooDeep);
    }
    Ok(depth - 1)
}
