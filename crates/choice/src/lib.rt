// Document 01, 'One tick', step 3: which task runs. "The choice of the running task reads the lent list of task records": the
// records are made of the lent arrays, two at a time, and walked by `urgent`.
#![tactic(auto)]

ghost use Rattle.std.specs.Prelude.{◌≡◌, ◌<◌, ◌≤◌};
ghost use Rattle.limits.specs.Limits.{max_tasks};
ghost use Rattle.lists.specs.Lists.{tab};
ghost use Rattle.urgent.specs.Urgent.{pair_size, least_rank};
ghost use Rattle.steps.specs.Flat.{first_active};
ghost use Rattle.choice.specs.Records.{record_of};

use arrays::{row_field, task_field};
use urgent::TaskRecord;

// The record of the task of a row: rows stand in order of priority, so the row is its rank.
#[tactic(auto, unfolding(crate::specs::Records::record_of))]
fn record_of(rows: &[u32], row: u32, tasks: &[u32]) -> TaskRecord
    ensures { result ≡ record_of rows.now tasks.now row }
{
    let task = row_field(rows, row, arrays::TASK);
    TaskRecord {
        status: task_field(tasks, task, arrays::STATUS),
        rank: row,
    }
}

// The least rank of the records of a row and the next one that are ACTIVE.
#[tactic(auto, unfolding(lists::specs::Lists::tab))]
fn least_of_pair(rows: &[u32], row: u32, tasks: &[u32]) -> u32
    requires { row < max_tasks }
    ensures { result ≡ least_rank (tab (record_of rows.now tasks.now) row pair_size) }
{
    let first = record_of(rows, row, tasks);
    let second = record_of(rows, row + 1, tasks);
    urgent::urgent_of([first, second])
}

// The first of the rows whose task is ACTIVE, and the row past them where there is none. The last pair may reach past the rows;
// what stands there comes after all of them and is not taken.
pub fn running_row(rows: &[u32], count: u32, tasks: &[u32]) -> u32
    requires { count ≤ max_tasks }
    ensures { result ≡ first_active rows.now tasks.now count 0 }
{
    for j in (0..count).step_by(urgent::PAIR as usize) {
        let row = least_of_pair(rows, j, tasks);
        if row < count {
            return row;
        }
    }
    count
}
