// Records put into a buffer: an individual, a connection, and the connections of a role set.
ghost use Rattle.std.specs.Prelude.{ℕ, ◌≡◌, ◌+◌, ◌*◌, ◌^◌, ◌≤◌, ◌<◌, length};
ghost use Rattle.output.specs.Output.{Puts};
ghost use Rattle.drawings.specs.Entries.{individual, connection};
ghost use Rattle.drawings.specs.Laid.{entry_bytes};
ghost use Rattle.drawing_layers.specs.Records.{Fits, role_bytes, role_count};

use output::put_text;

// The record of an individual with these names and fresh names.
#[tactic(auto, unfolding(drawings::specs::Laid::entry_bytes))]
pub(crate) fn put_individual(out: &mut [u8], at: usize, names: u16) -> usize
    requires { Fits (entry_bytes (individual names)) at out.old }
    ensures { Puts (entry_bytes (individual names)) at out.old out.new result }
{
    put_text(out, at, &[0x40, (names % 256) as u8, (names / 256) as u8])
}

// The record of a connection from x to y by role k.
#[tactic(auto, unfolding(drawings::specs::Laid::entry_bytes))]
fn put_connection(out: &mut [u8], at: usize, x: usize, y: usize, k: usize) -> usize
    requires { (x < 65536) × (y < 65536) × (k < 4) × (at + 6 ≤ length out.old) }
    ensures { Puts (entry_bytes (connection (record { from = x; to = y; role = k }))) at out.old out.new result }
{
    let record = [
        0x41,
        (x % 256) as u8,
        (x / 256) as u8,
        (y % 256) as u8,
        (y / 256) as u8,
        k as u8,
    ];
    put_text(out, at, &record)
}

// The records of the connections from x to y, by the l roles of a role set.
pub(crate) fn put_roles(
    out: &mut [u8],
    at: usize,
    l: usize,
    x: usize,
    y: usize,
    roles: usize,
) -> usize
    requires { (x < 65536) × (y < 65536) × (l ≤ 4) × Fits (role_bytes l x y roles) at out.old }
    ensures { Puts (role_bytes l x y roles) at out.old out.new result }
{
    let mut at = at;
    for k in 0..l {
        if (roles >> (k + k)) % 2 == 1 {
            at = put_connection(out, at, x, y, k);
        }
    }
    at
}

// How many roles are in a role set, of at most four: its bits 2k.
#[tactic(auto, using(crate::proofs::RoleRecords::role_count_ones))]
pub(crate) fn role_count(roles: usize) -> usize
    ensures { (l : ℕ) → l ≤ 4 → roles < 2 ^ (2 * l) → result ≡ role_count l roles }
{
    (roles & 0x55).count_ones() as usize
}
