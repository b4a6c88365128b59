// No code: what holds of the definitions of every text that keeps the rules, for the stages behind them.
#![tactic(auto)]
