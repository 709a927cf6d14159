// drawings: the tables of sheets. standing: a job that adds two of them. The other modules are the tests, one for each subject.
mod checks;
mod drawings;
mod large;
mod orders;
mod refusals;
mod spelling;
mod standing;
mod strays;
