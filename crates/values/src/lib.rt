// Values as a calling convention sees them: kinds, widths, alignments, types and requests.
#![tactic(auto)]

mod all_types;
pub mod kinds;
pub mod requests;
pub mod sizes;
pub mod types;
pub mod unknown;
pub mod value_type;
