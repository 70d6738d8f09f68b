// The words of the generator, and which of them stand for what.
ghost use Rattle.std.specs.Prelude.{◌≡◌, ◌<◌, ◌≤◌, ◌+◌, length, IfOk};
ghost use Rattle.model_gen.specs.Draws as draws;

use rand_core::SeedableRng;
use rand_core::utils::NextWord;
use rand_pcg::Lcg64Xsh32;
use std::alloc::{AllocError, Global};

/// The first words of the generator of a seed.
pub(crate) fn draw_words(alloc: Global, seed: u64, count: u32) -> Result<Vec<u32>, AllocError>
    ensures { IfOk result (λ words. words.items ≡ draws.words_of seed count) }
{
    let mut generator = Lcg64Xsh32::seed_from_u64(seed);
    let mut words = Vec::new(alloc);
    for k in 0..count {
        words.push(generator.next_word())?;
    }
    Ok(words)
}

/// How many columns stand in a row.
pub(crate) fn size(columns: u32, rows: u32, i: u32) -> u32
    requires columns { columns ≤ 1000 }
    requires row { i < rows }
    ensures value { result ≡ draws.size columns rows i }
    ensures limit { result ≤ 1000 }
{
    columns / rows + u32::from(i < columns % rows)
}

/// The number of the first word of a scenario.
pub(crate) fn first_word(columns: u32, rows: u32, s: u32) -> u32
    requires columns { columns ≤ 1000 }
    requires rows { rows ≤ 1000 }
    requires scenario { s ≤ 64 }
    ensures value { result ≡ draws.first_word columns rows s }
    ensures limit { result ≤ 2576 }
{
    columns + columns.min(rows) + 9 * s
}

/// A cost from 1 to 100.
pub(crate) fn cost_of(word: u32) -> u32
    ensures { result ≡ draws.cost_of word }
{
    1 + word % 100
}

// The demand of a row of so many columns.
pub(crate) fn demand(words: &[u32], columns: u32, rows: u32, i: u32) -> u32
    requires columns { columns ≤ 1000 }
    requires row { i < rows }
    requires rows { rows ≤ 1000 }
    requires words { draws.first_word columns rows 0 ≤ length words.now }
    ensures { result ≡ draws.demand words.now columns rows i }
{
    let size = size(columns, rows, i);
    if size == 0 {
        return 0;
    }
    1 + words[(columns + i) as usize] % (9 * size)
}
