// The records of a schedule: their bodies, and the fields of heads, constants, groups and firms with their ranges.
#![tactic(auto)]

mod bodies;
mod fields;

pub use bodies::{
    CONSTANTS_KIND, CONSTANTS_SIZE, FIRM_KIND, FIRM_SIZE, GROUP_KIND, GROUP_LEAST, GROUP_MOST,
    HEAD_KIND, HEAD_SIZE, body_at, rest_at,
};
pub use fields::{
    Firm, Group, Head, constants_fields, firm_fields, firm_ok, group_fields, group_in_range,
    has_code, head_fields, head_ok,
};
