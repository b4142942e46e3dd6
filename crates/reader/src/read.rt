// Reading one instruction: decode, plan, see that there is room, commit.
ghost use Rattle.std.specs.Prelude.{◌≡◌, Some, IfOk};
ghost use Rattle.memory.specs.Cells.{cells_of, room_for};
ghost use Rattle.reader.specs.Checks.{max_expressions};
ghost use Rattle.reader.specs.Fits.{PlanFits};
ghost use Rattle.reader.specs.States.{reading};
ghost use Rattle.reader.specs.Reads.{plan_room, read_checks, store_cells, store_room, reads};

use crate::states::{ReaderState, Reading};
use images::{Plan, StorePlan, parse_image_instruction};
use memory::{IdBooks, Lists, has_room, has_space};
use records::{
    Error, LookupExpression, LookupSampledImage, MAX_EXPRESSIONS, MAX_STATEMENTS, expect,
};
use words::parse_instruction;

// What an accepted instruction made.
#[derive(Clone, Copy)]
pub enum Answer {
    Couple(LookupSampledImage),
    Value(LookupExpression),
    Store,
}

// The plan of an instruction, and the id of its result.
#[derive(Clone, Copy)]
pub struct ReadPlan {
    pub id: u32,
    pub plan: Plan,
}

impl Reading {
    // How many statement cells a store takes, one of them held, where there are so many expressions after it.
    fn store_cells(&self, after: u32) -> u32
        ensures { result ≡ store_cells (Some self.now.emitter.start_len) after }
    {
        if self.emitter.start_len < after { 3 } else { 2 }
    }

    fn expression_room(&self, more: u32, lists: &Lists<'_>) -> bool
        ensures { result ≡ room_for more (cells_of self.now.counts lists.now).expressions max_expressions }
    {
        has_room(
            self.counts.expressions,
            more,
            lists.expressions.len(),
            MAX_EXPRESSIONS,
        )
    }

    fn store_room(&self, lists: &Lists<'_>, plan: StorePlan) -> bool
        ensures { result ≡ store_room (Some self.now.emitter.start_len) (cells_of self.now.counts lists.now) plan }
    {
        let count = plan.count();
        if !self.expression_room(count, lists) {
            return false;
        }
        let cells = self.store_cells(self.counts.expressions + count);
        has_room(
            self.counts.statements,
            cells,
            lists.statements.len(),
            MAX_STATEMENTS,
        )
    }

    // Whether there are cells in the lists and the books for what is to be appended.
    fn plan_room<B: IdBooks>(&self, lists: &Lists<'_>, books: &B, plan: Plan) -> bool
        ensures { result ≡ plan_room (Some self.now.emitter.start_len) (cells_of self.now.counts lists.now) (B.shelf books.now) plan }
    {
        match plan {
            Plan::Couple(_) => has_space(books.couples()),
            Plan::Sample(plan) => {
                self.expression_room(plan.count(), lists) && has_space(books.values())
            }
            Plan::Load(plan) => {
                self.expression_room(plan.count(), lists) && has_space(books.values())
            }
            Plan::Store(plan) => self.store_room(lists, plan),
        }
    }

    // Every check of an instruction, in the order of the refusals.
    fn plan_read<B: IdBooks>(
        &self,
        lists: &Lists<'_>,
        books: &B,
        words: &[u32],
    ) -> Result<ReadPlan, Error>
        ensures checks { result ≡ read_checks (Some self.now.emitter.start_len) (cells_of self.now.counts lists.now) (B.shelf books.now) words.now }
        ensures fits { IfOk result (λ r. PlanFits (Some self.now.emitter.start_len) (cells_of self.now.counts lists.now) (B.shelf books.now) r.id r.plan) }
    {
        let instruction = parse_instruction(words)?;
        self.expect_inside(lists)?;
        let ctx = self.context(lists, books);
        let plan = parse_image_instruction(&ctx, instruction)?;
        expect(self.plan_room(lists, books, plan), Error::Full)?;
        Ok(ReadPlan {
            id: instruction.ids.result.id,
            plan,
        })
    }

    fn read<B: IdBooks>(
        &mut self,
        lists: &mut Lists<'_>,
        books: &mut B,
        words: &[u32],
    ) -> Result<Answer, Error>
        ensures state { reading self.new lists.new (B.shelf books.new) ≡ (reads (reading self.old lists.old (B.shelf books.old)) words.now).state }
        ensures answer { result ≡ (reads (reading self.old lists.old (B.shelf books.old)) words.now).answer }
    {
        let ReadPlan { id, plan } = self.plan_read(lists, books, words)?;
        match plan {
            Plan::Couple(couple) => {
                books.put_couple(id, couple).unwrap();
                Ok(Answer::Couple(couple))
            }
            Plan::Sample(plan) => Ok(Answer::Value(self.commit_sample(lists, books, id, plan))),
            Plan::Load(plan) => Ok(Answer::Value(self.commit_load(lists, books, id, plan))),
            Plan::Store(plan) => {
                self.commit_store(lists, plan);
                Ok(Answer::Store)
            }
        }
    }

    // Reads one instruction. A refused one writes nothing.
    pub(crate) fn read_instruction<B: IdBooks>(
        self,
        lists: &mut Lists<'_>,
        books: &mut B,
        words: &[u32],
    ) -> (Reading, Result<Answer, Error>)
        ensures state { reading result.0 lists.new (B.shelf books.new) ≡ (reads (reading self lists.old (B.shelf books.old)) words.now).state }
        ensures answer { result.1 ≡ (reads (reading self lists.old (B.shelf books.old)) words.now).answer }
    {
        let mut reader = self;
        let answer = reader.read(lists, books, words);
        (reader, answer)
    }
}
