// Writing what an instruction makes, once all its checks have passed.
ghost use Rattle.std.specs.Prelude.{◌≡◌, ◌+◌, length, Some};
ghost use Rattle.memory.specs.Cells.{cells_of};
ghost use Rattle.images.specs.Records.{sample_count, load_count, store_count};
ghost use Rattle.reader.specs.States.{reading};
ghost use Rattle.reader.specs.Reads.{plan_step, sample_lookup, load_lookup, store_cells_after};
ghost use Rattle.reader.specs.Turns.{closed};
ghost use Rattle.reader.specs.Checks.{max_statements};
ghost use Rattle.reader.specs.Fits.{ResultFits, StoreFits};
ghost use Rattle.memory.specs.Rooms.{RoomIn};

use crate::append::push;
use crate::commit::{append_load, append_sample, append_store};
use crate::mark::mark;
use crate::states::{Emitter, Reading};
use images::{LoadPlan, Plan, SamplePlan, StorePlan};
use memory::{IdBooks, Lists};
use records::{LookupExpression, Statement};

impl Reading {
    // Appends the statement that covers the open range, unless it is empty.
    pub(crate) fn close_range(&mut self, lists: &mut Lists<'_>)
        requires { RoomIn (length lists.old.statements.now) self.old.counts.statements 1 max_statements }
        ensures closed { cells_of self.new.counts lists.new ≡ closed self.old.emitter.start_len (cells_of self.old.counts lists.old) }
        ensures emitter { self.new.emitter ≡ self.old.emitter }
    {
        if let Some(statement) = self.emitter.finish(self.counts.expressions) {
            push(lists.statements, &mut self.counts.statements, statement);
        }
    }

    // A load.
    pub(crate) fn commit_load<B: IdBooks>(
        &mut self,
        lists: &mut Lists<'_>,
        books: &mut B,
        id: u32,
        plan: LoadPlan,
    ) -> LookupExpression
        requires { ResultFits (cells_of self.old.counts lists.old) (B.shelf books.old) id (load_count plan) }
        ensures state { reading self.new lists.new (B.shelf books.new) ≡ (plan_step (reading self.old lists.old (B.shelf books.old)) id (Plan.Load plan)).state }
        ensures answer { result ≡ load_lookup self.old.counts.expressions plan }
    {
        let lookup = append_load(lists.expressions, self.counts.expressions, plan);
        self.counts.expressions += plan.count();
        books.put_value(id, lookup).unwrap();
        lookup
    }

    // A sample or gather: its records, its flags and its id.
    pub(crate) fn commit_sample<B: IdBooks>(
        &mut self,
        lists: &mut Lists<'_>,
        books: &mut B,
        id: u32,
        plan: SamplePlan,
    ) -> LookupExpression
        requires { ResultFits (cells_of self.old.counts lists.old) (B.shelf books.old) id (sample_count plan) }
        ensures state { reading self.new lists.new (B.shelf books.new) ≡ (plan_step (reading self.old lists.old (B.shelf books.old)) id (Plan.Sample plan)).state }
        ensures answer { result ≡ sample_lookup self.old.counts.expressions plan }
    {
        let lookup = append_sample(lists.expressions, self.counts.expressions, plan);
        mark(lists, plan.image_root, plan.flag);
        mark(lists, plan.sampler_root, plan.flag);
        self.counts.expressions += plan.count();
        books.put_value(id, lookup).unwrap();
        lookup
    }

    // A store: the expressions of its place and value, the range that they close, and the store itself. A new range begins.
    pub(crate) fn commit_store(&mut self, lists: &mut Lists<'_>, plan: StorePlan)
        requires { StoreFits (Some self.old.emitter.start_len) (cells_of self.old.counts lists.old) plan }
        ensures cells { cells_of self.new.counts lists.new ≡ store_cells_after self.old.emitter.start_len (cells_of self.old.counts lists.old) plan }
        ensures emitter { self.new.emitter.start_len ≡ self.old.counts.expressions + store_count plan }
    {
        let operands = append_store(lists.expressions, self.counts.expressions, plan);
        self.counts.expressions += plan.count();
        self.close_range(lists);
        let store = Statement::ImageStore {
            image: plan.image,
            coordinate: operands.coordinate,
            array_index: operands.array_index,
            value: operands.value,
        };
        push(lists.statements, &mut self.counts.statements, store);
        self.emitter = Emitter {
            start_len: self.counts.expressions,
        };
    }
}
