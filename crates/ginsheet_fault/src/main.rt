// ginsheet: reads sheet.gin in the current folder and prints what it says, or what is wrong with it and where.
// The gate runs a program on one folder of data, so this one is `ginsheet` again, on a damaged sheet.
#![tactic(auto)]

use describe::print_sheet;

fn main(rt: HostRuntime) -> anyhow::Result<()> {
    print_sheet(&rt)
}
