// Worked probes and decisions on small models, and hints that fit nothing.
mod again;
mod decisions;
mod misfits;
mod models;
mod probes;
mod rays;
mod reached;
mod works;
