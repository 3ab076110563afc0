mod files;
mod intakes;
mod loaders;
