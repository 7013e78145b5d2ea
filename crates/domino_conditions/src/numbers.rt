// The numbers of dominoes (a, r, b), by shifts. Functions and no methods, since Size is the reader's.
ghost use Rattle.std.specs.Prelude.{◌≡◌, ◌+◌, ◌*◌, ◌^◌, ◌<◌, ◌≤◌};
ghost use Rattle.bitset.specs.Bits.{words_for_lem};
ghost use Rattle.semantics.specs.Dominoes.{total, number, left_of, roles_of, right_of_lem, inverse, Domino};

use tbox::base::Size;

// 2 to the k.
pub fn pow(k: usize) -> usize
    requires { k < 64 }
    ensures { result ≡ 2 ^ k }
{
    1usize << k
}

// How many bits the number of a domino has.
pub fn domino_bits(size: Size) -> usize
    ensures { result ≡ 2 * size.parts + 2 * size.roles }
{
    size.parts + size.roles + size.parts + size.roles
}

// How many labels there are, how many role sets, how many dominoes with one left label, and how many dominoes.
pub fn labels(size: Size) -> usize
    ensures { result ≡ 2 ^ size.parts }
{
    pow(size.parts)
}

pub fn role_sets(size: Size) -> usize
    ensures { result ≡ 2 ^ (2 * size.roles) }
{
    pow(size.roles + size.roles)
}

pub fn row_size(size: Size) -> usize
    ensures { result ≡ 2 ^ (2 * size.roles + size.parts) }
{
    pow(size.roles + size.roles + size.parts)
}

pub fn dominoes(size: Size) -> usize
    ensures { result ≡ total size.parts size.roles }
{
    pow(domino_bits(size))
}

// The number of the domino (a, r, b).
// a, r and b stay three numbers: a loop makes one of them at a time, and a struct would be built for each domino.
pub fn index(size: Size, a: usize, r: usize, b: usize) -> usize
    requires { Domino size.parts size.roles a r b }
    ensures { result ≡ number size.parts size.roles a r b }
{
    (a << (size.roles + size.roles + size.parts)) + (r << size.parts) + b
}

pub fn left_of(size: Size, n: usize) -> usize
    ensures { result ≡ left_of size.parts size.roles n }
{
    n >> (size.roles + size.roles + size.parts)
}

pub fn roles_of(size: Size, n: usize) -> usize
    ensures { result ≡ roles_of size.parts size.roles n }
{
    (n >> size.parts) & (role_sets(size) - 1)
}

pub fn right_of(size: Size, n: usize) -> usize
    ensures { result ≡ right_of_lem size.parts n }
{
    n & (labels(size) - 1)
}

// Each role for its inverse, for at most four roles: the bits 2k and 2k + 1 change places.
pub fn inverse(l: usize, r: usize) -> usize
    requires { (l ≤ 4) × (r < 2 ^ (2 * l)) }
    ensures { result ≡ inverse l r }
{
    ((r & 0x55) << 1) + ((r >> 1) & 0x55)
}

// The words that hold a set of dominoes.
pub fn words_for(size: Size) -> usize
    ensures { result ≡ words_for_lem (total size.parts size.roles) }
{
    bitset::words_for(domino_bits(size))
}
