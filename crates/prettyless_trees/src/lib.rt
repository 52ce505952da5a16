//! What building makes of trees, as definitions alone: lines, appended and grouped documents, texts whose width is counted,
//! lists and words. It rests on the definition of a layout, and on nothing that builds or lays out.
#![tactic(auto)]
