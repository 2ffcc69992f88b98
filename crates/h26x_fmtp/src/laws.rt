//! Laws of the grammar. Each is the contract of a function without a result.

ghost use Rattle.std.specs.Prelude.{◌≡◌, ◌<◌, ℕ, true, Ok, List, [], ◌∷◌, ◌++◌};
ghost use Rattle.std.specs.List.{AllByRecursion, join_with_byte};
ghost use Rattle.h26x_fmtp.specs.Pairs.{Pair, parts, pairs, closes};
ghost use Rattle.h26x_fmtp.specs.Written.{written, with_pair, IsWritable};
ghost use Rattle.h26x_fmtp.specs.Tables.{ParameterRow};
ghost use Rattle.h26x_fmtp.specs.Parameters.{IsTable, AreParameters, IsReadAgain, OfEachRead};
ghost use Rattle.h26x_fmtp.specs.Reading.{FormatParameters};
ghost use Rattle.base64.specs.GeneralPurpose.{IsBytes};
ghost use Rattle.h26x_fmtp.specs.Units.{AreSpropUnits, sprop_units, units_text};
ghost use Rattle.h26x_fmtp.specs.declared.repair_map.RepairMap.{RepairMap};
ghost use Rattle.h26x_fmtp.specs.RepairMaps.{repair_map_of, repair_map_text};
ghost use Rattle.h26x_fmtp.specs.RtpMaps.{rtp_map_of, rtp_map_text};
ghost use Rattle.h26x_fmtp.specs.declared.rtp_map.RtpMap.{RtpMap};

/// A text is its parts with `;` between them.
pub fn parts_are_the_text()
    ensures { (text : List ℕ) → join_with_byte 59 (parts text) ≡ text }
{}

/// What is written is read as the same parameters, and leaves no brace open.
pub fn what_is_written_is_read()
    ensures same { (all : List Pair) → AllByRecursion IsWritable all → pairs (written all) ≡ all }
    ensures closes { (all : List Pair) → AllByRecursion IsWritable all → closes (written all) ≡ true }
    ensures more { (all : List Pair) (pair : Pair) →
        written (all ++ pair ∷ []) ≡ with_pair (written all) pair }
{}

/// What is read from a text that leaves no brace open can be written, and is read again as the same.
pub fn what_is_read_can_be_written()
    ensures writable { (text : List ℕ) → closes text ≡ true →
        AllByRecursion IsWritable (pairs text) }
    ensures again { (text : List ℕ) → closes text ≡ true →
        pairs (written (pairs text)) ≡ pairs text }
{}

/// What is written of a table's parameters is read as the same, for all parameters: each value one of
/// its kind, and the others none of the table.
pub fn what_is_written_of_a_table_is_read()
    ensures same { (rows : List ParameterRow) (it : FormatParameters) → IsTable rows →
        AreParameters rows it → IsReadAgain rows it }
{}

/// What a table reads of a text are parameters of it, and once they are written they are read and
/// written as the same.
pub fn what_is_read_of_a_table_is_written()
    ensures parameters { OfEachRead (λ rows it. AreParameters rows it) }
    ensures again { OfEachRead (λ rows it. IsReadAgain rows it) }
{}

/// What is written of NAL units is read as the same units, and what is read is written as the same
/// text.
pub fn units_and_their_text()
    ensures read { (units : List (List ℕ)) → AreSpropUnits units →
        sprop_units (units_text units) ≡ Ok units }
    ensures written { (text : List ℕ) (units : List (List ℕ)) → IsBytes text →
        sprop_units text ≡ Ok units → units_text units ≡ text }
{}

/// What is written of a payload type of what goes beside video is read as the same.
pub fn what_is_written_of_a_repair_map_is_read()
    ensures { (map : RepairMap) → map.payload_type < 128 →
        repair_map_of (repair_map_text map) ≡ Ok map }
{}

/// What is written of a payload type and its encoding is read as the same.
pub fn what_is_written_of_an_rtp_map_is_read()
    ensures { (map : RtpMap) → map.payload_type < 128 → rtp_map_of (rtp_map_text map) ≡ Ok map }
{}
