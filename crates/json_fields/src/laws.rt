//! Laws of fields, whatever their kinds: what is printed field by field reads again field by field, and
//! what is read can be printed.

ghost use Rattle.std.specs.Prelude.{◌≡◌, ℕ, List, Option, Some, None, Ok, IfSome, option_map};
ghost use Rattle.json.specs.Lex.{tokens};
ghost use Rattle.json.specs.Print.{print};
ghost use Rattle.serde_json.specs.Data.{Data};
ghost use Rattle.json_fields.specs.Fields.{optional, needed, defaulted};
ghost use Rattle.json_fields.specs.Lines.{IsOneLine};
ghost use Rattle.json_fields.specs.Printing.{Field, fields_object, printed_at};

use crate::kind::FieldKind;

/// A field of an object that was printed field by field reads as the value that it was printed of.
pub fn a_printed_field_reads_again<T: FieldKind>()
    // a field that has to be there and was printed, whatever stands beside it
    ensures needed { (name : List ℕ) (fs : List Field) (x : T.Plain) → T.is_printable x
        → printed_at name fs ≡ Some (T.printed x) → needed T.kind name (fields_object fs) ≡ Ok x }
    // one with a default that was printed
    ensures defaulted { (name : List ℕ) (fs : List Field) (x other : T.Plain) → T.is_printable x
        → printed_at name fs ≡ Some (T.printed x) → defaulted T.kind name other (fields_object fs) ≡ Ok x }
    // one with a default that was left out
    ensures missing { (name : List ℕ) (fs : List Field) (other : T.Plain)
        → printed_at name fs ≡ None → defaulted T.kind name other (fields_object fs) ≡ Ok other }
    // one that may be absent
    ensures optional { (name : List ℕ) (fs : List Field) (o : Option T.Plain) → IfSome o T.is_printable
        → printed_at name fs ≡ option_map T.printed o → optional T.kind name (fields_object fs) ≡ Ok o }
{}

/// A field that was read can be printed.
pub fn what_is_read_can_be_printed<T: FieldKind>()
    ensures needed { (name : List ℕ) (body : Data) (x : T.Plain)
        → needed T.kind name body ≡ Ok x → T.is_printable x }
    ensures defaulted { (name : List ℕ) (body : Data) (x other : T.Plain) → T.is_printable other
        → defaulted T.kind name other body ≡ Ok x → T.is_printable x }
    ensures optional { (name : List ℕ) (body : Data) (o : Option T.Plain)
        → optional T.kind name body ≡ Ok o → IfSome o T.is_printable }
{}

/// Compact JSON has no newline: one in a text is escaped, and a number has none.
pub fn compact_json_is_one_line()
    ensures { (text : List ℕ) → text ≡ print (tokens text) → IsOneLine text }
{}
