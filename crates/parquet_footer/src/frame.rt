//! The frame of a file: the magic bytes, and where the footer stands.

ghost use Rattle.std.specs.Prelude.{◌≡◌, ℕ, ◌≤◌, List, length, Ok, IfOk};
ghost use Rattle.lake_bytes.specs.Reading.{IsReading};
ghost use Rattle.lake_bytes.specs.declared.fault.ByteFault.TheVariants.{Short};
ghost use Rattle.parquet_footer.specs.Frame.{FramedAs, frame_of, is_framed, footer_length};
ghost use Rattle.parquet_footer.specs.declared.fault.FileFault.TheVariants.{BadFooter};
ghost use Rattle.thrift_values.specs.declared.fault.ThriftFault.TheVariants.{Bytes};

use crate::fault::FileFault;
use lake_bytes::ByteFault;
use thrift_core::ThriftFault;

/// The most bytes of a file: 64 MiB.
pub const MAX_FILE_SIZE: usize = 67_108_864;

/// The bytes at both ends of a file.
pub const MAGIC: &[u8] = b"PAR1";

/// The bytes before the footer, with the magic bytes in front, and the footer (Parquet, File Format). P9 for a file of
/// over 64 MiB, P1 for one of under 12 bytes or without the magic bytes at both ends, and P2 with B1 Short for a stated
/// length of the footer above the file's less 12.
///
/// The time is constant, and no memory is taken.
pub fn split_file(bytes: &[u8]) -> Result<(&[u8], &[u8]), FileFault>
    // The bytes are framed, as these two parts.
    ensures found { IfOk result (λ parts. FramedAs bytes.now parts.0.now parts.1.now) }
    // The two parts of a framed file are found.
    ensures only { (front footer : List ℕ) → FramedAs bytes.now front footer → length bytes.now ≤ 67108864 → IsReading {Y = List ℕ × List ℕ} (λ parts. (parts.0.now, parts.1.now)) result (Ok (front, footer)) }
    // Which fault it is: the first one in the order of the tests.
    ensures exact { IsReading (λ parts. (parts.0.now, parts.1.now)) result (frame_of bytes.now) }
{
    parts_of(bytes)
}

/// The two parts, in the order of the tests.
#[tactic(auto, unfolding(crate::specs::Frame::frame_of))]
fn parts_of(bytes: &[u8]) -> Result<(&[u8], &[u8]), FileFault>
    ensures exact { IsReading (λ parts. (parts.0.now, parts.1.now)) result (frame_of bytes.now) }
{
    if bytes.len() > MAX_FILE_SIZE {
        return Err(FileFault::TooLarge);
    }
    if !is_framed(bytes) {
        return Err(FileFault::BadMagic);
    }
    let (front, _) = bytes.split_at(bytes.len() - 8);
    let length = footer_length(bytes);
    if length > bytes.len() - 12 {
        return Err(short_footer());
    }
    Ok(front.split_at(front.len() - length))
}

fn short_footer() -> FileFault
    ensures { result ≡ BadFooter (Bytes Short) }
{
    FileFault::BadFooter {
        fault: ThriftFault::Bytes(ByteFault::Short),
    }
}

/// At least 12 bytes, with the magic bytes at both ends.
fn is_framed(bytes: &[u8]) -> bool
    ensures { result ≡ is_framed bytes.now }
{
    bytes.len() >= 12 && bytes.starts_with(MAGIC) && bytes.ends_with(MAGIC)
}

/// The footer's length, as the four bytes before the last magic bytes state it.
fn footer_length(bytes: &[u8]) -> usize
    requires { 12 ≤ length bytes.now }
    ensures { result ≡ footer_length bytes.now }
{
    let (_, end) = bytes.split_at(bytes.len() - 8);
    match end.first_chunk::<4>() {
        Some(length) => u32::from_le_bytes(*length) as usize,
        None => 0,
    }
}
