//! What a cartridge holds and says: its sectors and segments, the code, header and volume table, and what stands for a list
//! of volumes. Definitions alone.
#![tactic(auto)]
