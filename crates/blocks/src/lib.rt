// The walk in blocks, about the definitions alone: which digits a step moves, what a node's value depends on, the order in which a
// tail is refreshed, and the law that values kept from block to block are the values worked out afresh. There is no function here.
#![tactic(auto)]
