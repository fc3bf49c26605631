// Queries 16 to 22 and 24 to 30: the functions for C of the seven records, `threadwicket_NAME_decode` and `threadwicket_NAME_encode`. After
// `room` comes the input, of any length: a record's bytes to decode, or its fields to encode, as the struct for C has them.
use crate::query::Record;

// From a record's bytes to its fields.
pub(crate) fn decode(record: Record, bytes: &[u8], fields: &mut [u8]) -> u32 {
    match record {
        Record::Current => export::current::threadwicket_current_decode(bytes, fields),
        Record::Mutation => export::mutation::threadwicket_mutation_decode(bytes, fields),
        Record::Key => export::key::threadwicket_key_decode(bytes, fields),
        Record::Entry => export::entry::threadwicket_entry_decode(bytes, fields),
        Record::CookieValue => export::cookie_value::threadwicket_cookie_value_decode(
            bytes, fields,
        ),
        Record::Config => export::config_view::threadwicket_config_decode(bytes, fields),
        Record::Inspection => export::inspection_view::threadwicket_inspection_decode(
            bytes, fields,
        ),
    }
}

// From a record's fields to its bytes.
pub(crate) fn encode(record: Record, fields: &[u8], bytes: &mut [u8]) -> u32 {
    match record {
        Record::Current => export::current::threadwicket_current_encode(fields, bytes),
        Record::Mutation => export::mutation::threadwicket_mutation_encode(fields, bytes),
        Record::Key => export::key::threadwicket_key_encode(fields, bytes),
        Record::Entry => export::entry::threadwicket_entry_encode(fields, bytes),
        Record::CookieValue => export::cookie_value::threadwicket_cookie_value_encode(
            fields, bytes,
        ),
        Record::Config => export::config_view::threadwicket_config_encode(fields, bytes),
        Record::Inspection => export::inspection_view::threadwicket_inspection_encode(
            fields, bytes,
        ),
    }
}
