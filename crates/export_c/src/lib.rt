// The static library of `export` for programs in C and in languages that call C, for x86-64: each of its functions under its own name, by one
// call, and with its clauses. `rt lib` writes out/libexport_c.a. A `&[u8]` passes as a pointer and a length, a reference to an array as a
// pointer. include/threadwicket.h has the declarations for C.
#![tactic(auto)]

ghost use Rattle.std.specs.Prelude.{◌≡◌};
ghost use Rattle.deadline.specs.Deadline.{refresh_decision};
ghost use Rattle.packet.specs.Reading.{classify_of};
ghost use Rattle.export.specs.Export.{Classified};
ghost use Rattle.export.specs.View.{ViewDecoded, ViewEncoded};
ghost use Rattle.export.specs.Views.{current_view, mutation_view, key_view, entry_view, cookie_value_view, config_view, inspection_view};

use export::Address;

// Reads a packet's source against an endpoint: 0 Protected, 1 Unrelated or 2 Indeterminate, with the count of extension headers passed in
// `reading`. Where that is too short the answer is 256, and nothing is written.
#[unsafe(no_mangle)]
pub extern "C" fn threadwicket_classify_raw(
    packet: &[u8],
    family: u8,
    address: &Address,
    port: u16,
    reading: &mut [u8],
) -> u32
    ensures { Classified (classify_of packet.now (record { family = family; address = address.now; port = port })) reading.old result reading.new }
{
    export::threadwicket_classify_raw(packet, family, address, port, reading)
}

// Whether a requested deadline may take the place of the prior one: 0 PriorExpired, 1 RequestedDeadlineInvalid, 2 DeadlineRegressed or
// 3 Apply.
#[unsafe(no_mangle)]
pub extern "C" fn threadwicket_refresh(observed: u64, prior: u64, requested: u64) -> u32
    ensures { result ≡ refresh_decision observed prior requested }
{
    export::threadwicket_refresh(observed, prior, requested)
}

// The current record, from bytes to fields.
#[unsafe(no_mangle)]
pub extern "C" fn threadwicket_current_decode(bytes: &[u8], fields: &mut [u8]) -> u32
    ensures { ViewDecoded current_view bytes.now fields.old result fields.new }
{
    export::current::threadwicket_current_decode(bytes, fields)
}

// The current record, from fields to bytes.
#[unsafe(no_mangle)]
pub extern "C" fn threadwicket_current_encode(fields: &[u8], bytes: &mut [u8]) -> u32
    ensures { ViewEncoded current_view fields.now bytes.old result bytes.new }
{
    export::current::threadwicket_current_encode(fields, bytes)
}

// The mutation authority, from bytes to fields.
#[unsafe(no_mangle)]
pub extern "C" fn threadwicket_mutation_decode(bytes: &[u8], fields: &mut [u8]) -> u32
    ensures { ViewDecoded mutation_view bytes.now fields.old result fields.new }
{
    export::mutation::threadwicket_mutation_decode(bytes, fields)
}

// The mutation authority, from fields to bytes.
#[unsafe(no_mangle)]
pub extern "C" fn threadwicket_mutation_encode(fields: &[u8], bytes: &mut [u8]) -> u32
    ensures { ViewEncoded mutation_view fields.now bytes.old result bytes.new }
{
    export::mutation::threadwicket_mutation_encode(fields, bytes)
}

// A key, from bytes to fields.
#[unsafe(no_mangle)]
pub extern "C" fn threadwicket_key_decode(bytes: &[u8], fields: &mut [u8]) -> u32
    ensures { ViewDecoded key_view bytes.now fields.old result fields.new }
{
    export::key::threadwicket_key_decode(bytes, fields)
}

// A key, from fields to bytes.
#[unsafe(no_mangle)]
pub extern "C" fn threadwicket_key_encode(fields: &[u8], bytes: &mut [u8]) -> u32
    ensures { ViewEncoded key_view fields.now bytes.old result bytes.new }
{
    export::key::threadwicket_key_encode(fields, bytes)
}

// An entry, from bytes to fields.
#[unsafe(no_mangle)]
pub extern "C" fn threadwicket_entry_decode(bytes: &[u8], fields: &mut [u8]) -> u32
    ensures { ViewDecoded entry_view bytes.now fields.old result fields.new }
{
    export::entry::threadwicket_entry_decode(bytes, fields)
}

// An entry, from fields to bytes.
#[unsafe(no_mangle)]
pub extern "C" fn threadwicket_entry_encode(fields: &[u8], bytes: &mut [u8]) -> u32
    ensures { ViewEncoded entry_view fields.now bytes.old result bytes.new }
{
    export::entry::threadwicket_entry_encode(fields, bytes)
}

// A cookie value, from bytes to fields.
#[unsafe(no_mangle)]
pub extern "C" fn threadwicket_cookie_value_decode(bytes: &[u8], fields: &mut [u8]) -> u32
    ensures { ViewDecoded cookie_value_view bytes.now fields.old result fields.new }
{
    export::cookie_value::threadwicket_cookie_value_decode(bytes, fields)
}

// A cookie value, from fields to bytes.
#[unsafe(no_mangle)]
pub extern "C" fn threadwicket_cookie_value_encode(fields: &[u8], bytes: &mut [u8]) -> u32
    ensures { ViewEncoded cookie_value_view fields.now bytes.old result bytes.new }
{
    export::cookie_value::threadwicket_cookie_value_encode(fields, bytes)
}

// The configuration, from bytes to fields.
#[unsafe(no_mangle)]
pub extern "C" fn threadwicket_config_decode(bytes: &[u8], fields: &mut [u8]) -> u32
    ensures { ViewDecoded config_view bytes.now fields.old result fields.new }
{
    export::config_view::threadwicket_config_decode(bytes, fields)
}

// The configuration, from fields to bytes.
#[unsafe(no_mangle)]
pub extern "C" fn threadwicket_config_encode(fields: &[u8], bytes: &mut [u8]) -> u32
    ensures { ViewEncoded config_view fields.now bytes.old result bytes.new }
{
    export::config_view::threadwicket_config_encode(fields, bytes)
}

// An inspection, from bytes to fields.
#[unsafe(no_mangle)]
pub extern "C" fn threadwicket_inspection_decode(bytes: &[u8], fields: &mut [u8]) -> u32
    ensures { ViewDecoded inspection_view bytes.now fields.old result fields.new }
{
    export::inspection_view::threadwicket_inspection_decode(bytes, fields)
}

// An inspection, from fields to bytes.
#[unsafe(no_mangle)]
pub extern "C" fn threadwicket_inspection_encode(fields: &[u8], bytes: &mut [u8]) -> u32
    ensures { ViewEncoded inspection_view fields.now bytes.old result bytes.new }
{
    export::inspection_view::threadwicket_inspection_encode(fields, bytes)
}
