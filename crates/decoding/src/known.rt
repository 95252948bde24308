ghost use Rattle.std.specs.Prelude.{◌≡◌, ℕ, ◌+◌, ◌≤◌, List, length, pos, OnErr};
ghost use Rattle.words.specs.Signed.{Between};
ghost use Rattle.kinds.specs.Codes.{byte_of};
ghost use Rattle.blockfield.specs.BlockField.{kind_at, signed_at, index_from, shift_register};
ghost use Rattle.refusals.specs.Stages.{ended, stage_of};
ghost use Rattle.refusals.specs.Modest.{Modest};
ghost use Rattle.refusals.specs.declared.Limits.{Limits};
ghost use Rattle.decoding.specs.Decoded.{header_in, block_in, label_in, row_in, end_in, header_taken, block_taken, label_taken, row_taken, end_taken};
ghost use Rattle.decoding.specs.Held.{Nothing, Sound, Adds, Takes, SameArrays, head_of, seen, judged, registers_after};

use connectors::Reach;
use kinds::Kind;
use refusals::{Field, Limits, Refusal, Stage};

// What is known of a circuit from the fields so far. Who has it judged owns it and lends it.
#[derive(Clone, Copy)]
pub struct Known {
    pub stage: Stage,
    // n of the header, the blocks and the rows so far, and where the first row stands
    pub n: usize,
    pub blocks: usize,
    pub rows: usize,
    pub start: usize,
    // of each block where it stands, and whether it is analog: arrays of fixed length, since there is no heap, and two, as each is lent alone
    pub offsets: [usize; 400],
    sorts: [bool; 400],
    // the destinations and the indices of shift registers that are used
    used: [bool; 156],
    registers: [bool; 4],
}

impl Known {
    // Nothing, before the first field.
    pub fn new() -> Self
        ensures { Nothing result }
    {
        Known {
            stage: Stage::Opening,
            n: 0,
            blocks: 0,
            rows: 0,
            start: 0,
            offsets: [0; 400],
            sorts: [false; 400],
            used: [false; 156],
            registers: [false; 4],
        }
    }

    // Forgets all of it. What the first two arrays hold may stay: no more of it counts than there are blocks.
    pub fn begin(&mut self)
        ensures { Nothing self.new }
    {
        self.stage = Stage::Opening;
        self.n = 0;
        self.blocks = 0;
        self.rows = 0;
        self.start = 0;
        self.used = [false; 156];
        self.registers = [false; 4];
    }

    // What the connectors of the next block or row are judged by.
    fn reach(&self, limits: &Limits) -> Reach<'_>
        requires { self.now.blocks ≤ 400 }
        ensures limits { result.limits ≡ limits.now }
        ensures n { result.n ≡ self.now.n }
        ensures blocks { result.blocks ≡ self.now.blocks }
        ensures sorts { result.sorts.now ≡ self.now.sorts }
    {
        Reach {
            limits: *limits,
            n: self.n,
            blocks: self.blocks,
            sorts: &self.sorts,
        }
    }

    // Each of the next five asks `Sound`: it speaks of the field's place too, which `Known` has not, so no ghost field can say it.

    pub fn header(&mut self, limits: &Limits, field: &Field) -> Result<(), Refusal>
        requires { Sound (head_of self.old) field.now.at × Modest limits.now }
        ensures takes { Takes limits.now field.now self.old (header_in limits.now field.now.bytes.now field.now.at field.now.size) (header_taken field.now.bytes.now field.now.at) result self.new }
        ensures arrays { SameArrays self.old self.new }
        ensures refused { OnErr result (self.new ≡ self.old) }
    {
        self.n = fields::judge_header(limits, field, self.stage)?;
        self.start = field.end();
        self.stage = Stage::AmongBlocks;
        Ok(())
    }

    pub fn block(&mut self, limits: &Limits, field: &Field) -> Result<(), Refusal>
        requires { Sound (head_of self.old) field.now.at × (stage_of self.old.stage ≡ ended → ⊥) }
        ensures takes { Takes limits.now field.now self.old (block_in limits.now field.now.bytes.now field.now.at field.now.size) (block_taken field.now.bytes.now field.now.at) result self.new }
        ensures used { self.new.used ≡ self.old.used }
        ensures refused { OnErr result (self.new ≡ self.old) }
    {
        let reach = self.reach(limits);
        let kind = blockfield::judge_block(&reach, field, self.stage, &self.registers)?;
        mark_register(kind, field, &mut self.registers);
        let count = self.blocks;
        self.sorts[count] = kind.is_analog();
        self.offsets[count] = field.at;
        self.blocks = count + 1;
        self.start = field.end();
        self.stage = Stage::AfterBlock;
        Ok(())
    }

    pub fn label(&mut self, field: &Field) -> Result<(), Refusal>
        requires { Sound (head_of self.old) field.now.at }
        ensures takes { (limits : Limits) (s : List ℕ) → Adds limits s (seen self.old) (label_in field.now.size) ((field.now.at + 3) + field.now.size) (label_taken s field.now.at) (judged result ((field.now.at + 3) + field.now.size) (seen self.new)) }
        ensures arrays { SameArrays self.old self.new }
        ensures refused { OnErr result (self.new ≡ self.old) }
    {
        fields::judge_label(field.size, self.stage)?;
        self.start = field.end();
        self.stage = Stage::AmongBlocks;
        Ok(())
    }

    pub fn row(&mut self, limits: &Limits, field: &Field) -> Result<(), Refusal>
        requires { Sound (head_of self.old) field.now.at × Modest limits.now × (stage_of self.old.stage ≡ ended → ⊥) }
        ensures takes { Takes limits.now field.now self.old (row_in limits.now field.now.bytes.now field.now.at field.now.size) (row_taken field.now.bytes.now field.now.at) result self.new }
        ensures arrays { (self.new.offsets ≡ self.old.offsets) × (self.new.sorts ≡ self.old.sorts) × (self.new.registers ≡ self.old.registers) }
        ensures refused { OnErr result (self.new ≡ self.old) }
    {
        let reach = self.reach(limits);
        let mark = fields::judge_row(&reach, field, self.stage, &self.used)?;
        self.used[mark] = true;
        self.rows += 1;
        self.stage = Stage::AmongRows;
        Ok(())
    }

    pub fn end(&mut self, field: &Field) -> Result<(), Refusal>
        requires { Sound (head_of self.old) field.now.at × (stage_of self.old.stage ≡ ended → ⊥) }
        ensures takes { (limits : Limits) (s : List ℕ) → Adds limits s (seen self.old) (end_in field.now.size) ((field.now.at + 3) + field.now.size) end_taken (judged result ((field.now.at + 3) + field.now.size) (seen self.new)) }
        ensures arrays { SameArrays self.old self.new }
        ensures refused { OnErr result (self.new ≡ self.old) }
    {
        fields::judge_end(field.size, self.stage, self.n, self.blocks)?;
        self.stage = Stage::Ended;
        Ok(())
    }
}

// Marks the index of a shift register.
fn mark_register(kind: Kind, field: &Field, registers: &mut [bool; 4])
    requires { (byte_of kind ≡ kind_at field.now.bytes.now field.now.at) × (kind_at field.now.bytes.now field.now.at ≡ shift_register → (index_from field.now.at + 4 ≤ length field.now.bytes.now) × Between (pos 1) (pos 4) (signed_at field.now.bytes.now (index_from field.now.at))) }
    ensures { registers.new ≡ registers_after field.now.bytes.now field.now.at registers.old }
{
    if let Kind::ShiftRegister = kind {
        let index = blockfield::index_mark(field.bytes, field.at);
        registers[index] = true;
    }
}
