//! The faults: what stands within a refusal, or is told of bytes by themselves.
ghost use Rattle.std.specs.Prelude.{◌≡◌, map};
ghost use Rattle.refusal_texts.specs.Codes.{fault_codes};

use crate::{Again, Refusal};

/// The faults by letter and number, each code once: C of a table, V of a row, G of a schema, A of a commit's line, P of
/// a Parquet file, H of columns, TH of Thrift, B of bytes. The same bytes have the same fault again.
pub fn faults() -> &'static [Refusal]
    ensures { map (λ refusal. refusal.code.now) result.now ≡ fault_codes }
{
    &FAULTS
}

static FAULTS: [Refusal; 41] = [
    Refusal {
        code: "C1",
        name: "NoProtocol",
        meaning: "no commit tells the table's protocol",
        again: Again::Never,
    },
    Refusal {
        code: "C2",
        name: "NoMetadata",
        meaning: "no commit tells the table's metadata",
        again: Again::Never,
    },
    Refusal {
        code: "C3",
        name: "Feature",
        meaning: "the table has the feature that follows, which isn't known here, or lacks it where it is needed",
        again: Again::Never,
    },
    Refusal {
        code: "C4",
        name: "Partitioned",
        meaning: "the table is partitioned",
        again: Again::Never,
    },
    Refusal {
        code: "C5",
        name: "ReaderVersion",
        meaning: "the table asks for readers of the version that follows, and this program is none",
        again: Again::Never,
    },
    Refusal {
        code: "C6",
        name: "BadSchema",
        meaning: "the table's schema can't be read; the first thing that is wrong with its text follows",
        again: Again::Never,
    },
    Refusal {
        code: "V1",
        name: "Missing",
        meaning: "at the path that follows there is no value, or null where null may not stand",
        again: Again::Never,
    },
    Refusal {
        code: "V2",
        name: "WrongKind",
        meaning: "the value at the path that follows is of another kind than its field",
        again: Again::Never,
    },
    Refusal {
        code: "V3",
        name: "OutOfRange",
        meaning: "at the path that follows a number is out of its type's range, or a text or bytes pass 1 MiB",
        again: Again::Never,
    },
    Refusal {
        code: "V4",
        name: "Unsupported",
        meaning: "the column at the path that follows is of a type that has no rows, so the table takes none",
        again: Again::Never,
    },
    Refusal {
        code: "V5",
        name: "Unknown",
        meaning: "no field of the struct has the key that follows",
        again: Again::Never,
    },
    Refusal {
        code: "G1",
        name: "BadJson",
        meaning: "the schema's text is no JSON",
        again: Again::Never,
    },
    Refusal {
        code: "G2",
        name: "BadType",
        meaning: "at the path that follows the schema has no type, or a struct with a field that is none",
        again: Again::Never,
    },
    Refusal {
        code: "G3",
        name: "DoubleName",
        meaning: "at the path that follows a field has the name of an earlier one of its struct",
        again: Again::Never,
    },
    Refusal {
        code: "G4",
        name: "TooDeep",
        meaning: "a type of the schema is below the 16th level",
        again: Again::Never,
    },
    Refusal {
        code: "G5",
        name: "TooMany",
        meaning: "the schema has over 1,024 types or 256 leaves",
        again: Again::Never,
    },
    Refusal {
        code: "G6",
        name: "NoFields",
        meaning: "the struct at the path that follows has no fields",
        again: Again::Never,
    },
    Refusal {
        code: "A1",
        name: "BadJson",
        meaning: "the line that follows, counted from 1, is no JSON object",
        again: Again::Never,
    },
    Refusal {
        code: "A2",
        name: "BadField",
        meaning: "in the line that follows, counted from 1, the field that is named is missing or of another kind",
        again: Again::Never,
    },
    Refusal {
        code: "A3",
        name: "NotOneKey",
        meaning: "the object of the line that follows, counted from 1, has no key or several",
        again: Again::Never,
    },
    Refusal {
        code: "P1",
        name: "BadMagic",
        meaning: "the bytes are no Parquet file",
        again: Again::Never,
    },
    Refusal {
        code: "P2",
        name: "BadFooter",
        meaning: "the footer can't be read, lacks a field or has a negative count; its fault follows",
        again: Again::Never,
    },
    Refusal {
        code: "P3",
        name: "Codec",
        meaning: "a column is compressed by the codec that follows; only 0, uncompressed, is read",
        again: Again::Never,
    },
    Refusal {
        code: "P4",
        name: "Encoding",
        meaning: "the encoding that follows isn't read; of values only 0, PLAIN, is, of levels 3, RLE",
        again: Again::Never,
    },
    Refusal {
        code: "P5",
        name: "PageKind",
        meaning: "a page has the type that follows; only 0, a data page of version 1, is read",
        again: Again::Never,
    },
    Refusal {
        code: "P6",
        name: "BadOffset",
        meaning: "a page begins before byte 4 or not before the footer, or runs into the footer",
        again: Again::Never,
    },
    Refusal {
        code: "P7",
        name: "CountMismatch",
        meaning: "sizes or counts in the file don't agree",
        again: Again::Never,
    },
    Refusal {
        code: "P8",
        name: "SchemaMismatch",
        meaning: "the file's columns aren't the table's, or a number or a null in it doesn't fit the schema",
        again: Again::Never,
    },
    Refusal {
        code: "P9",
        name: "TooLarge",
        meaning: "the file passes 64 MiB, or its rows 4,194,304, or a text or bytes in it 1 MiB",
        again: Again::Never,
    },
    Refusal {
        code: "P10",
        name: "NotUtf8",
        meaning: "a text in the file isn't UTF-8",
        again: Again::Never,
    },
    Refusal {
        code: "P11",
        name: "BadPage",
        meaning: "a page's header, levels or values can't be read; the fault follows",
        again: Again::Never,
    },
    Refusal {
        code: "H1",
        name: "UnevenColumns",
        meaning: "there are more or fewer columns, levels or values than belong together",
        again: Again::Never,
    },
    Refusal {
        code: "H2",
        name: "LevelMismatch",
        meaning: "the columns don't give a row; the path of the leaf at which it fails first follows",
        again: Again::Never,
    },
    Refusal {
        code: "TH1",
        name: "BadType",
        meaning: "a type isn't read here, or a boolean in a list, set or map is neither 0, 1 nor 2",
        again: Again::Never,
    },
    Refusal {
        code: "TH2",
        name: "TooDeep",
        meaning: "more than 32 structs, lists and maps stand in one another",
        again: Again::Never,
    },
    Refusal {
        code: "TH3",
        name: "TooMany",
        meaning: "there are more than 262,144 values",
        again: Again::Never,
    },
    Refusal {
        code: "TH4",
        name: "MissingField",
        meaning: "a struct lacks the field of the id that follows, or it is of another kind",
        again: Again::Never,
    },
    Refusal {
        code: "B1",
        name: "Short",
        meaning: "the bytes end too early",
        again: Again::Never,
    },
    Refusal {
        code: "B2",
        name: "VarintTooLong",
        meaning: "a varint has more than ten bytes",
        again: Again::Never,
    },
    Refusal {
        code: "B3",
        name: "OutOfRange",
        meaning: "a number is out of its type's range, or a count is negative",
        again: Again::Never,
    },
    Refusal {
        code: "B4",
        name: "BadRun",
        meaning: "a run of equal or of packed values has no values",
        again: Again::Never,
    },
];
