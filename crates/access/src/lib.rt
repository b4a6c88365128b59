// Reset, read, write and retry over lawful rows and a store: a lent slice of numbers, one for each field row.
#![tactic(auto)]

ghost use Rattle.std.specs.Prelude.{◌≡◌, ◌++◌, ◌+◌, ◌/◌, ◌≤◌, ◌<◌, length, drop};
ghost use Rattle.bits.specs.Bits.{number};
ghost use Rattle.rows.specs.Rows.{tables};
ghost use Rattle.std.specs.Prelude.{if◌then◌else◌};
ghost use Rattle.basics.specs.Judged.{broken_number, outcome};
ghost use Rattle.basics.specs.Limits.{register_limit, field_limit, register_row_width, field_row_width};
ghost use Rattle.model.specs.Model.{width_of, stepped, gives, bits_of, word_from, access_numbers, numbers_with};
ghost use Rattle.model.specs.Repeats.{repeats};
ghost use Rattle.access.specs.Stored.{stored_fields, device_from, device_in};
ghost use Rattle.access.specs.Perform.{refusal_of, answer_of, store_after, reset_refusal, reset_answer, store_reset, reset_numbers, retry_refusal, retry_of, retry_numbers};
ghost use Rattle.access.specs.Runs.{register_of, stored_field, row_fields, all_fields, reached_rows, is_fitting, fitting_rows, reset_in, resets_from, LawfulRows, Runs, RangedFields};

use basics::Rule;
use fields::{FieldAt, Offset, Register};
use model::{Access, Answer, View};
use rows::RegisterRow;

// What reset answers: how many numbers it wrote, or the rule that refuses it.
pub type Restored = Result<usize, Rule>;

// Whether an access may be sent again: made twice, it does what it does made once.
#[derive(Clone, Copy, PartialEq, Eq)]
pub enum Resend {
    Safe,
    Unsafe,
}

// Whether an access may be sent again, or the rule that refuses it.
pub type Retried = Result<Resend, Rule>;

// The widths of a register's row.
fn register_of(row: RegisterRow) -> Register
    ensures { result ≡ register_of row }
{
    Register {
        width: row.width,
        access: row.access,
    }
}

// A field with its register, and the number that it shows.
fn stored_field(row: RegisterRow, field: FieldAt, index: usize) -> View
    ensures { result ≡ stored_field row field index }
{
    View {
        base: row.address,
        register: register_of(row),
        field,
        index,
    }
}

// The store after a register's fields have acted, in an access that is answered.
fn step_run(fields: &[u64], store: &mut [u64], access: Access, row: RegisterRow)
    requires { Runs (width_of access) fields.now row × (row.first + row.count ≤ length store.old) }
    ensures { store.new ≡ stepped access (row_fields row fields.now) store.old }
{
    let first = row.first as usize;
    for k in 0..row.count as usize {
        let j = first + k;
        let field = stored_field(row, rows::field_row(fields, j), j);
        store[j] = field_access::number_after(access, field, store[j]);
    }
}

// The store after an access that is answered.
fn step_rows(registers: &[u64], fields: &[u64], store: &mut [u64], access: Access)
    requires { LawfulRows (width_of access) registers.now fields.now × (length fields.now / field_row_width ≤ length store.old) }
    ensures { store.new ≡ stepped access (all_fields registers.now fields.now) store.old }
{
    for i in 0..registers.len() / basics::REGISTER_ROW_WIDTH {
        let row = rows::register_row(registers, i);
        step_run(fields, store, access, row);
    }
}

// The word that a register's fields give to a read.
fn word_of_run(fields: &[u64], store: &[u64], address: Offset, width: u64, row: RegisterRow) -> u64
    requires { Runs width fields.now row × (row.first + row.count ≤ length store.now) }
    ensures { result ≡ number width (gives (row_fields row fields.now) address width (bits_of store.now)) }
{
    let first = row.first as usize;
    let mut word: u64 = 0;
    for k in 0..row.count as usize {
        let j = first + k;
        let field = stored_field(row, rows::field_row(fields, j), j);
        word |= field_access::word_of(address, width, field, store[j]);
    }
    word
}

// The word of a read that is answered.
fn word_of_rows(
    registers: &[u64],
    fields: &[u64],
    store: &[u64],
    address: Offset,
    width: u64,
) -> u64
    requires { LawfulRows width registers.now fields.now × (length fields.now / field_row_width ≤ length store.now) }
    ensures { result ≡ number width (gives (all_fields registers.now fields.now) address width (bits_of store.now)) }
{
    let mut word: u64 = 0;
    for i in 0..registers.len() / basics::REGISTER_ROW_WIDTH {
        let row = rows::register_row(registers, i);
        word |= word_of_run(fields, store, address, width, row);
    }
    word
}

// Whether an access reaches a register.
#[tactic(auto, using(crate::proofs::Loops::reach_on), unfolding(crate::specs::Runs::reached_rows))]
fn is_reached(registers: &[u64], address: Offset, width: u64) -> bool
    requires { (8 ≤ width) × (length registers.now / register_row_width ≤ register_limit) }
    ensures { result ≡ reached_rows address width registers.now 0 (length registers.now / register_row_width) }
{
    for i in 0..registers.len() / basics::REGISTER_ROW_WIDTH {
        let row = rows::register_row(registers, i);
        if field_access::reaches_register(address, width, row.address, register_of(row)) {
            return true;
        }
    }
    false
}

// Whether a number has no more bits than a field.
fn is_fitting(number: u64, field: FieldAt) -> bool
    requires { (field.low.0 ≤ field.high.0) × (field.high.0 < 64) }
    ensures { result ≡ is_fitting number field }
{
    !fields::needs_more(number, field.high.0 + 1 - field.low.0)
}

// Whether the store fits: the number of each field row has no more bits than the field.
#[tactic(auto, using(crate::proofs::Loops::fit_loop), unfolding(crate::specs::Runs::fitting_rows))]
fn are_fitting(fields: &[u64], store: &[u64]) -> bool
    requires { RangedFields fields.now × (length fields.now / field_row_width ≤ length store.now) }
    ensures { result ≡ fitting_rows fields.now store.now 0 (length fields.now / field_row_width) }
{
    for j in 0..fields.len() / basics::FIELD_ROW_WIDTH {
        if !is_fitting(store[j], rows::field_row(fields, j)) {
            return false;
        }
    }
    true
}

// The first rule that refuses an access.
fn check_access(
    registers: &[u64],
    paths: &[u8],
    fields: &[u64],
    labels: &[u8],
    store: &[u64],
    access: Access,
) -> Result<(), Rule>
    ensures { broken_number result ≡ refusal_of (tables registers.now paths.now fields.now labels.now) store.now access }
{
    if !field_access::is_well_formed(access) {
        return Err(Rule::BadAccess);
    }
    if !rows::are_lawful(registers, paths, fields, labels) {
        return Err(Rule::BadRows);
    }
    if store.len() < fields.len() / basics::FIELD_ROW_WIDTH {
        return Err(Rule::NoRoom);
    }
    if !are_fitting(fields, store) {
        return Err(Rule::BadRows);
    }
    if !is_reached(
        registers,
        field_access::address_of(access),
        field_access::width_of(access),
    ) {
        return Err(Rule::NothingReached);
    }
    Ok(())
}

// The word of an access that is answered: 0 for a write.
fn word_of_access(registers: &[u64], fields: &[u64], store: &[u64], access: Access) -> u64
    requires { LawfulRows (width_of access) registers.now fields.now × (length fields.now / field_row_width ≤ length store.now) }
    ensures { result ≡ word_from (device_from (all_fields registers.now fields.now)) access (bits_of store.now) }
{
    match access {
        Access::Read { address, width } => word_of_rows(registers, fields, store, address, width),
        Access::Write { .. } => 0,
    }
}

// Makes an access: the answer, and the store afterwards. Refused, nothing has changed.
pub fn perform(
    registers: &[u64],
    paths: &[u8],
    fields: &[u64],
    labels: &[u8],
    store: &mut [u64],
    access: Access,
) -> Answer
    ensures answer { outcome result ≡ answer_of (tables registers.now paths.now fields.now labels.now) store.old access }
    ensures stored { store.new ≡ store_after (tables registers.now paths.now fields.now labels.now) store.old access }
    ensures numbers { access_numbers (outcome result) ≡ numbers_with (refusal_of (tables registers.now paths.now fields.now labels.now) store.old access) (word_from (device_in (tables registers.now paths.now fields.now labels.now)) access (bits_of store.old)) }
{
    check_access(registers, paths, fields, labels, store, access)?;
    let word = word_of_access(registers, fields, store, access);
    step_rows(registers, fields, store, access);
    Ok(word)
}

// A software read of so many bits at an address.
pub fn read(
    registers: &[u64],
    paths: &[u8],
    fields: &[u64],
    labels: &[u8],
    store: &mut [u64],
    address: Offset,
    width: u64,
) -> Answer
    ensures answer { outcome result ≡ answer_of (tables registers.now paths.now fields.now labels.now) store.old (Access.Read address width) }
    ensures stored { store.new ≡ store_after (tables registers.now paths.now fields.now labels.now) store.old (Access.Read address width) }
    ensures numbers { access_numbers (outcome result) ≡ numbers_with (refusal_of (tables registers.now paths.now fields.now labels.now) store.old (Access.Read address width)) (word_from (device_in (tables registers.now paths.now fields.now labels.now)) (Access.Read address width) (bits_of store.old)) }
{
    perform(
        registers,
        paths,
        fields,
        labels,
        store,
        Access::Read { address, width },
    )
}

// A software write of a word of so many bits at an address.
pub fn write(
    registers: &[u64],
    paths: &[u8],
    fields: &[u64],
    labels: &[u8],
    store: &mut [u64],
    address: Offset,
    width: u64,
    word: u64,
) -> Answer
    ensures answer { outcome result ≡ answer_of (tables registers.now paths.now fields.now labels.now) store.old (Access.Write address width word) }
    ensures stored { store.new ≡ store_after (tables registers.now paths.now fields.now labels.now) store.old (Access.Write address width word) }
    ensures numbers { access_numbers (outcome result) ≡ numbers_with (refusal_of (tables registers.now paths.now fields.now labels.now) store.old (Access.Write address width word)) (word_from (device_in (tables registers.now paths.now fields.now labels.now)) (Access.Write address width word) (bits_of store.old)) }
{
    perform(
        registers,
        paths,
        fields,
        labels,
        store,
        Access::Write {
            address,
            width,
            word,
        },
    )
}

// A field's reset, or 0.
fn reset_of(field: FieldAt) -> u64
    ensures { result ≡ reset_in field }
{
    field.values.reset.unwrap_or(0)
}

fn put_resets(fields: &[u64], store: &mut [u64])
    requires { (length fields.now / field_row_width ≤ field_limit) × (length fields.now / field_row_width ≤ length store.old) }
    ensures { store.new ≡ resets_from fields.now 0 (length fields.now / field_row_width) ++ drop (length fields.now / field_row_width) store.old }
{
    for j in 0..fields.len() / basics::FIELD_ROW_WIDTH {
        store[j] = reset_of(rows::field_row(fields, j));
    }
}

// Writes the store that a post starts with: each field's reset, or 0.
pub fn reset(
    registers: &[u64],
    paths: &[u8],
    fields: &[u64],
    labels: &[u8],
    store: &mut [u64],
) -> Restored
    ensures answer { outcome result ≡ reset_answer (tables registers.now paths.now fields.now labels.now) store.old }
    ensures stored { store.new ≡ store_reset (tables registers.now paths.now fields.now labels.now) store.old }
    ensures numbers { reset_numbers (outcome result) ≡ numbers_with (reset_refusal (tables registers.now paths.now fields.now labels.now) store.old) (length (device_in (tables registers.now paths.now fields.now labels.now)).sizes) }
{
    if !rows::are_lawful(registers, paths, fields, labels) {
        return Err(Rule::BadRows);
    }
    let all = fields.len() / basics::FIELD_ROW_WIDTH;
    if store.len() < all {
        return Err(Rule::NoRoom);
    }
    put_resets(fields, store);
    Ok(all)
}

// Whether each bit of a register's fields lets an access be made again.
#[tactic(auto, using(crate::proofs::Loops::again_on), unfolding(crate::specs::Runs::run_fields, model::specs::Repeats::repeats))]
fn run_repeats(fields: &[u64], access: Access, row: RegisterRow) -> bool
    requires { Runs (width_of access) fields.now row }
    ensures { result ≡ repeats (row_fields row fields.now) access }
{
    let first = row.first as usize;
    for k in 0..row.count as usize {
        let j = first + k;
        let field = stored_field(row, rows::field_row(fields, j), j);
        if !field_access::repeats_all(access, field) {
            return false;
        }
    }
    true
}

fn rows_repeat(registers: &[u64], fields: &[u64], access: Access) -> bool
    requires { LawfulRows (width_of access) registers.now fields.now }
    ensures { result ≡ repeats (all_fields registers.now fields.now) access }
{
    for i in 0..registers.len() / basics::REGISTER_ROW_WIDTH {
        let row = rows::register_row(registers, i);
        if !run_repeats(fields, access, row) {
            return false;
        }
    }
    true
}

// Whether an access may be sent again.
pub fn retry(
    registers: &[u64],
    paths: &[u8],
    fields: &[u64],
    labels: &[u8],
    access: Access,
) -> Retried
    ensures answer { outcome result ≡ retry_of (tables registers.now paths.now fields.now labels.now) access }
    ensures numbers { retry_numbers (outcome result) ≡ numbers_with (retry_refusal (tables registers.now paths.now fields.now labels.now) access) (if repeats (stored_fields (tables registers.now paths.now fields.now labels.now)) access then 1 else 0) }
{
    if !field_access::is_well_formed(access) {
        return Err(Rule::BadAccess);
    }
    if !rows::are_lawful(registers, paths, fields, labels) {
        return Err(Rule::BadRows);
    }
    if !is_reached(
        registers,
        field_access::address_of(access),
        field_access::width_of(access),
    ) {
        Err(Rule::NothingReached)
    } else if rows_repeat(registers, fields, access) {
        Ok(Resend::Safe)
    } else {
        Ok(Resend::Unsafe)
    }
}
