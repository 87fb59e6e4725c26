//! The records of a table, one after the other.
ghost use Rattle.std.specs.Prelude.{◌≡◌, ℕ, suc, true, [], ◌∷◌, IfOk, OnErr};
ghost use Rattle.std.specs.Bool.{MatchBool};
ghost use Rattle.csv.specs.Reading.{has_failed};
ghost use Rattle.csv.specs.Records.{fields_of};
ghost use Rattle.fault_table.specs.Records.{records_left, IsReading};

use coord_model::NoMemory;
use csv::{ByteRecord, Reader};
use std::io::Read;

/// Reads the next record into `fields`, and answers whether there was one.
pub fn next_record<R: Read>(
    reader: &mut Reader<R>,
    fields: &mut ByteRecord,
) -> Result<bool, NoMemory>
    requires { IsReading R.remaining reader.old }
    ensures next { IfOk result (λ found. MatchBool found
        (((n : ℕ) → records_left R.remaining (suc n) reader.old ≡ fields_of fields.new ∷ records_left R.remaining n reader.new)
        × IsReading R.remaining reader.new)
        ((n : ℕ) → records_left R.remaining (suc n) reader.old ≡ [])) }
    ensures failed { OnErr result (has_failed reader.new ≡ true) }
{
    let Ok(found) = reader.read_byte_record(fields) else {
        return Err(NoMemory);
    };
    Ok(found)
}
