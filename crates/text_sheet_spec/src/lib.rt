// What the programs `show` and `probe_list` print of a sheet: its size or its refusal in words, which `keypad_check`
// and `walk` print as well, the lines of its catalogue codes and of each node, and the lines of a node's probes and
// optional events. The crate has the formats as definitions, and their laws; it has no function.
#![tactic(auto)]
