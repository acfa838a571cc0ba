//! A chunk of a scan with what is carried into it.
ghost use Rattle.std.specs.Prelude.{◌≡◌, ◌+◌, length};
ghost use Rattle.phase_code.specs.Ranges.{Carry_gives};
ghost use Rattle.phase_code.specs.Carries.{rows_at};

use crate::{Applied, Made, OperatorCode, Rows};
use chunk_work::Task;
use fut_scalar::NoMemory;
use std::alloc::Global;
use std::marker::PhantomData;

/// Each chunk behind the first, with what is carried into it.
#[derive(Drop)]
pub struct CarryTask<'a, A, W, O> {
    pub op: &'a O,
    pub parts: &'a [Made<W>],
    pub carries: &'a [Made<W>],
    pub of: PhantomData<A>,
    pub ghost long: { length carries.now + 1 ≡ length parts.now },
}

impl<'a, A, W: Rows<A>, O: OperatorCode<A, W>> Task<Applied<W>> for CarryTask<'a, A, W, O> {
    ghost ran = { λ t c o. Carry_gives W.rows (O.monoid t.op.now) (rows_at W.rows t.carries.now c) (rows_at W.rows t.parts.now (c + 1)) o };

    ghost chunks = { λ t. length t.carries.now };

    fn run(&self, alloc: Global, chunk: u64) -> Result<Applied<W>, NoMemory> {
        let carry = &self.carries[chunk as usize];
        let part = &self.parts[chunk as usize + 1];
        let carried = self.op.carry(alloc, &carry.words, &part.words)?;
        Ok(carried)
    }
}
