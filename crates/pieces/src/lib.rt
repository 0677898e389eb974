// Writers of the pieces of a message, each from the line of the day list that holds its values, in hexadecimal digits.
//
//   line          a line that holds its frame, and its texts
//   transaction   a transaction, from the line of its collection
//   head          a batch before its first transaction; a message before its first batch
#![tactic(auto)]

pub mod head;
pub mod line;
pub mod transaction;
