mod batches;
mod building;
mod checking;
mod making;
mod recipes;
