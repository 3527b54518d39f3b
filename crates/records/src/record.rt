// A record: four fields of four bytes, the low byte first.
ghost use Rattle.std.specs.Prelude.{◌≡◌};
ghost use Rattle.records.specs.Bytes.{fields_of, record_of};

use std::array;

// Functions and no `From`, since rows of bytes and of numbers are types of the language.

/// The four fields of a record.
pub fn decode(bytes: &[u8; 16]) -> [u32; 4]
    ensures { result ≡ fields_of bytes.now }
{
    let (words, _) = bytes.as_chunks::<4>();
    array::from_fn(|at| u32::from_le_bytes(words[at]))
}

/// The record of four fields.
pub fn encode(fields: &[u32; 4]) -> [u8; 16]
    ensures { result ≡ record_of fields.now }
{
    let words = fields.map(u32::to_le_bytes);
    let mut record = [0; 16];
    record.copy_from_slice(words.as_flattened());
    record
}
