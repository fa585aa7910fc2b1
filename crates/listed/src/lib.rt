// The listing of a plan file as a text: specs/ has it as a definition, and `list` fills a lent page with exactly that text.
// It uses `reading`, `flow` and `narrow` for what is listed, `lines` and `text` for the text.
#![tactic(auto)]

pub mod list;
