//! Single fields of JSON objects, and whole JSON texts.
ghost use Rattle.kp_worked_texts.specs.Fields as fields;

/// Members of an object, by their types, and what is absent.
pub fn worked_fields()
    ensures values { fields.Values }
    ensures types { fields.OtherTypes }
    ensures absent { fields.Absent }
    ensures list { fields.OfList }
    ensures order { fields.Order }
{}

/// Whole numbers within bounds, and what is none.
pub fn worked_numbers()
    ensures within { fields.Numbers }
    ensures past { fields.OutOfBounds }
    ensures others { fields.NoNumbers }
{}

/// Texts that are JSON, and texts that are none; and a text in quotation marks.
pub fn worked_json()
    ensures read { fields.Read }
    ensures bad { fields.Bad }
    ensures quoted { fields.Quoted }
{}
