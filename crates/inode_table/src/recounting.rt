//! How often rows are named, counted anew.
ghost use Rattle.std.specs.Prelude.{◌≡◌, ◌+◌, ◌-◌, ◌^◌, ◌<◌, ◌≤◌, [], Some, IsSome, slice_set, vec_len, vec_capacity};
ghost use Rattle.std.specs.Option.{option_map};
ghost use Rattle.hs_types.specs.declared.ids.InodeId.{InodeId};
ghost use Rattle.inode_table.specs.declared.row.Row.{Row};
ghost use Rattle.inode_table.specs.Kept.{rows_in};
ghost use Rattle.inode_table.specs.Numbered.{at_place, with_names};
ghost use Rattle.inode_table.specs.Recounts.{AreOff, AreSmall};
ghost use Rattle.inode_table.specs.Slots.{table_in, AreCounted, AreListed};
ghost use Rattle.inode_table.specs.Tabled.{recounted};
ghost use Rattle.inode_table.specs.Totals.{weight, blocks_named};

use crate::change::Recount;
use crate::row::Row;
use hs_types::InodeId;

fn name_more(slot: &mut Option<Row>)
    requires { (row : Row) → slot.old ≡ Some row → row.names + 1 < 2 ^ 32 }
    ensures { slot.new ≡ option_map (with_names (λ n. n + 1)) slot.old }
{
    if let Some(row) = slot {
        row.names += 1;
    }
}

fn name_less(slot: &mut Option<Row>)
    ensures { slot.new ≡ option_map (with_names (λ n. n - 1)) slot.old }
{
    if let Some(row) = slot {
        row.names = row.names.saturating_sub(1);
    }
}

fn more_at(rows: &mut Vec<Option<Row>>, id: InodeId)
    requires there { IsSome (at_place rows.old.items id) }
    requires small { (row : Row) → at_place rows.old.items id ≡ Some row → row.names + 1 < 2 ^ 32 }
    ensures set { rows.new.items ≡ slice_set rows.old.items id.0 (option_map (with_names (λ n. n + 1)) (at_place rows.old.items id)) }
    ensures len { vec_len rows.new ≡ vec_len rows.old }
    ensures capacity { vec_capacity rows.new ≡ vec_capacity rows.old }
{
    name_more(&mut rows[id.0 as usize]);
}

fn less_at(rows: &mut Vec<Option<Row>>, id: InodeId)
    requires { IsSome (at_place rows.old.items id) }
    ensures set { rows.new.items ≡ slice_set rows.old.items id.0 (option_map (with_names (λ n. n - 1)) (at_place rows.old.items id)) }
    ensures len { vec_len rows.new ≡ vec_len rows.old }
    ensures capacity { vec_capacity rows.new ≡ vec_capacity rows.old }
{
    name_less(&mut rows[id.0 as usize]);
}

/// Counts anew whom a change names more or less, once the counts are off by that.
pub fn recount(rows: &mut Vec<Option<Row>>, unnamed: &mut Vec<InodeId>, recount: Recount)
    requires off { AreOff rows.old.items recount }
    requires small { AreSmall rows.old.items recount }
    requires room { vec_len unnamed.old < vec_capacity unnamed.old }
    ensures told { table_in rows.new.items ≡ recounted recount (table_in rows.old.items) }
    ensures counted { AreCounted rows.new.items [] }
    ensures listed { AreListed rows.old.items unnamed.old.items → AreListed rows.new.items unnamed.new.items }
    ensures rows { (id : InodeId) → rows_in (at_place rows.new.items id) ≡ rows_in (at_place rows.old.items id) }
    ensures weight { weight (table_in rows.new.items) ≡ weight (table_in rows.old.items) }
    ensures blocks { blocks_named (table_in rows.new.items) ≡ blocks_named (table_in rows.old.items) }
    ensures len { vec_len rows.new ≡ vec_len rows.old }
    ensures capacity { vec_capacity rows.new ≡ vec_capacity rows.old }
    ensures stack { vec_len unnamed.new ≤ vec_len unnamed.old + 1 }
    ensures stack_capacity { vec_capacity unnamed.new ≡ vec_capacity unnamed.old }
{
    match recount {
        Recount::Same => {}
        Recount::More(id) => more_at(rows, id),
        Recount::Less(id) => {
            less_at(rows, id);
            unnamed.push_reserved(id);
        }
    }
}
