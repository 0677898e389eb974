// The terms of the collections of a day list as numbers, and by them the batch of each.
#![tactic(auto)]

ghost use Rattle.std.specs.Prelude.{◌≡◌, ◌+◌, length, Ok};
ghost use Rattle.frames.specs.Hex.{unhex};
ghost use Rattle.frames.specs.Lines.{starts};
ghost use Rattle.text.specs.Rules.{number_told, date};
ghost use Rattle.daylist.specs.Stages.{judged_list};
ghost use Rattle.bundle.specs.Labels.{need_of, labels_of};
ghost use Rattle.collections.specs.Listed.{collection_of};
ghost use Rattle.collections.specs.Numbers.{terms_number, numbers_of};

use daylist::lines::line_end;
use daylist::values::judge_part;
use frames::lines::line_starts;
use frames::{Field, hex};
use profile::Profile;
use text::Rule;

// The collection date of a line as the number yyyymmdd, 0 where it is none.
fn day_number(line: &[u8]) -> u64
    ensures { result ≡ number_told (date (collection_of (unhex line.now)).terms.date) }
{
    let end = line.len() / 2;
    if end <= 8 {
        return 0;
    }
    let length = usize::from(hex::byte_at(line, 8));
    let size = length.min(end - 9);
    judge_part(line, 9, size, Field::Needed(Rule::Date)).unwrap_or(0)
}

// The terms of the collection that a line holds, as one number.
pub fn terms_number(line: &[u8]) -> u64
    ensures { result ≡ terms_number (collection_of (unhex line.now)).terms }
{
    let day = day_number(line);
    let scheme = u64::from(hex::byte_at(line, 1));
    let sequence = u64::from(hex::byte_at(line, 2));
    (day * 2 + scheme) * 4 + sequence
}

// The number of each collection's terms, in list order. `table` says where each line starts, the creditor's first.
// By index of the table, where the creditor's line is first: of a zip of `iter_mut` a proof does not learn what was written.
pub fn terms_numbers(list: &[u8], table: &[usize], numbers: &mut [u64])
    requires table_value { table.now ≡ starts list.now }
    requires numbers_len { length numbers.old + 1 ≡ length table.now }
    ensures { numbers.new ≡ numbers_of list.now }
{
    for (i, number) in numbers.iter_mut().enumerate() {
        let at = table[i + 1];
        let end = line_end(list, at);
        *number = terms_number(&list[at..end]);
    }
}

// The batches of a list that was judged good: `table` gets where each line starts, `labels` the number of each collection's batch, from 0. Answers how many batches are needed.
// What is lent goes as two parts: there is no heap, and docs/PROMISES.md names this function, which takes any two of the right lengths, of any list
// that is judged good.
pub fn label(list: &[u8], ceiling: u64, table: &mut [usize], labels: &mut [u64]) -> u64
    requires ceiling_value { judged_list list.now ceiling ≡ Ok (length labels.old) }
    requires table_len { length table.old ≡ length labels.old + 1 }
    ensures value { result ≡ need_of ceiling (numbers_of list.now) }
    ensures table_after { table.new ≡ starts list.now }
    ensures labels_after { labels.new ≡ labels_of ceiling (numbers_of list.now) }
{
    let mut numbers = [0u64; Profile::COLLECTIONS];
    let numbers = &mut numbers[..labels.len()];
    line_starts(list, table);
    terms_numbers(list, table, numbers);
    bundle::label(numbers, ceiling, labels)
}
