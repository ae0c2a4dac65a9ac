// Laws alone, with no function: what is true of the chart of every sound graph. The chart is defined in specification/specs/Chart.antt.
#![tactic(auto)]
