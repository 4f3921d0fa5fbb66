//! The digest of a device and its filters.

ghost use Rattle.std.specs.Prelude.{◌≡◌, map};
ghost use Rattle.std.specs.List.{flat_map};
ghost use Rattle.pcm_digest.specs.Digests.{device_numbers, digest_of, filter_numbers, mixed_all, digested, section_numbers, signed_number, table_numbers};

use pcm_desk::Device;
use pcm_feeder::{Section, Table, Tables};

// What a digest is multiplied by before the next number is added: an odd number, so that two that differ still do.
const MULTIPLIER: u64 = 6364136223846793005;

/// The digest of a device and its filters: all that is configured of a run.
pub fn digest_of(device: &Device, tables: &Tables) -> u64
    ensures { result ≡ digest_of tables.now device.now }
{
    mix_filters(mix_device(0, device), tables)
}

fn mix_device(digest: u64, device: &Device) -> u64
    ensures { result ≡ mixed_all digest (device_numbers device.now) }
{
    let (settings, mix) = (device.settings, device.mix);
    let numbers = [
        u64::from(settings.format.code()),
        settings.layout.channels() as u64,
        u64::from(settings.rate),
        u64::from(mix.format.code()),
        mix.layout.channels() as u64,
        u64::from(mix.rate),
        u64::from(device.block_frames),
        u64::from(device.ring_frames),
        u64::from(device.play_slots),
        u64::from(device.record_slots),
        u64::from(device.map_slots),
        u64::from(device.quality),
    ];
    mixed_all(digest, &numbers)
}

fn mix_filters(digest: u64, tables: &Tables) -> u64
    ensures { result ≡ mixed_all digest (filter_numbers tables.now) }
{
    let counts = [tables.list().len() as u64, tables.sections().len() as u64];
    let digest = mixed_all(digest, &counts);
    let digest = mix_tables(digest, tables.list());
    mix_sections(digest, tables.sections())
}

fn mix_tables(digest: u64, list: &[Table]) -> u64
    ensures { result ≡ mixed_all digest (flat_map table_numbers list.now) }
{
    let mut mixed = digest;
    for at in 0..list.len() {
        mixed = mix_table(mixed, &list[at]);
    }
    mixed
}

fn mix_table(digest: u64, table: &Table) -> u64
    ensures { result ≡ mixed_all digest (table_numbers table.now) }
{
    let numbers = [
        u64::from(table.src),
        u64::from(table.dst),
        table.phases as u64,
        table.taps as u64,
        u64::from(table.shift),
    ];
    mix_coefs(mixed_all(digest, &numbers), table.coefs.as_slice())
}

fn mix_coefs(digest: u64, coefs: &[i32]) -> u64
    ensures { result ≡ mixed_all digest (map signed_number coefs.now) }
{
    let mut mixed = digest;
    for at in 0..coefs.len() {
        mixed = mix_coef(mixed, coefs[at]);
    }
    mixed
}

fn mix_sections(digest: u64, sections: &[Section]) -> u64
    ensures { result ≡ mixed_all digest (flat_map section_numbers sections.now) }
{
    let mut mixed = digest;
    for at in 0..sections.len() {
        mixed = mix_section(mixed, sections[at]);
    }
    mixed
}

fn mix_section(digest: u64, section: Section) -> u64
    ensures { result ≡ mixed_all digest (section_numbers section) }
{
    let shift = digested(digest, u64::from(section.shift));
    let b0 = mix_coef(shift, section.b0);
    let b1 = mix_coef(b0, section.b1);
    let b2 = mix_coef(b1, section.b2);
    let a1 = mix_coef(b2, section.a1);
    mix_coef(a1, section.a2)
}

fn mix_coef(digest: u64, coef: i32) -> u64
    ensures { result ≡ digested digest (signed_number coef) }
{
    digested(digest, signed_number(coef))
}

fn mixed_all(digest: u64, numbers: &[u64]) -> u64
    ensures { result ≡ mixed_all digest numbers.now }
{
    let mut mixed = digest;
    for at in 0..numbers.len() {
        mixed = digested(mixed, numbers[at]);
    }
    mixed
}

fn digested(digest: u64, number: u64) -> u64
    ensures { result ≡ digested digest number }
{
    digest
        .wrapping_mul(MULTIPLIER)
        .wrapping_add(number)
        .wrapping_add(1)
}

// A coefficient as a number.
fn signed_number(coef: i32) -> u64
    ensures { result ≡ signed_number coef }
{
    let value = i64::from(coef);
    if value >= 0 {
        2 * value as u64
    } else {
        2 * (-1 - value) as u64 + 1
    }
}
